//! Passing the conses of a world where they are buffered.
ghost use Rattle.std.specs.Prelude.{◌≡◌, ◌≤◌, ℕ, take, None, Ok, IfSome};
ghost use Rattle.line_input.specs.Reader.{IsWholeLine};
ghost use Rattle.input_verdict.specs.Conses.{Passed};
ghost use Rattle.input_verdict.specs.Events.{Nothing};
ghost use Rattle.input_verdict.specs.Places.{IsPlace};
ghost use Rattle.input_verdict.specs.Verdict.{judged_as};

use crate::input::JudgedInput;
use line_input::{LineReader, LineSpan};

/// Judges the next line if its line feed is buffered and it is `cons AREA V V` in the world. It looks at each byte once. Otherwise the place
/// is unchanged.
#[inline(always)]
fn buffered_cons(place: &mut JudgedInput, reader: &LineReader) -> Option<LineSpan>
    requires { IsPlace place.old }
    ensures found { IfSome result (IsWholeLine reader.now) }
    ensures judged { IfSome result (λ found. judged_as place.old (take found.length reader.now.bytes) found.size
        ≡ Ok (record { event = Nothing; place = place.new })) }
    ensures stays_sound { IsPlace place.new }
    ensures none { result ≡ None → place.new ≡ place.old }
{
    if place.judge.ended || !place.has_room_for_a_line() {
        return None;
    }
    let length = place.judge.builder.cons_before_feed(reader.bytes())?;
    place.advance(length + 1);
    Some(LineSpan {
        length,
        size: length + 1,
    })
}

/// Goes past conses, one after another. It has a loop of its own, so that the loop over the commands of a trace stays small.
#[inline(never)]
fn pass_each(place: &mut JudgedInput, reader: &mut LineReader)
    requires { IsPlace place.old }
    ensures judged { (n : ℕ) × Passed n place.old place.new reader.old reader.new }
    ensures stays_sound { IsPlace place.new }
    ensures ended { reader.new.ended ≡ reader.old.ended }
    ensures never_falls { place.old.bytes ≤ place.new.bytes }
{
    while let Some(cons) = buffered_cons(place, reader) {
        reader.pass(cons.size);
    }
}

/// In the world, goes past the next lines as long as each is `cons AREA V V`, is accepted, and is buffered with its line feed. In the trace it
/// does nothing.
#[inline(always)]
pub fn pass_conses(place: &mut JudgedInput, reader: &mut LineReader)
    requires { IsPlace place.old }
    ensures judged { (n : ℕ) × Passed n place.old place.new reader.old reader.new }
    ensures stays_sound { IsPlace place.new }
    ensures ended { reader.new.ended ≡ reader.old.ended }
    ensures never_falls { place.old.bytes ≤ place.new.bytes }
{
    if !place.judge.builder.is_closed() {
        pass_each(place, reader);
    }
}
