//! The `root` lines, and the line that closes a world.
ghost use Rattle.std.specs.Prelude.{◌≡◌, false};
ghost use Rattle.world_text.specs.reading.Words.{words_of};
ghost use Rattle.world_text.specs.reading.Reader.{IsReader, Judged};
ghost use Rattle.world_text.specs.reading.Closing.{closing_line, closing_word, has_root, root_line};

use crate::reading::missing::{missing_value, no_object};
use crate::reading::next::{next_register, next_value};
use crate::{LineResult, Reason, Section, WorldFault, WorldReader, WorldStep};

fn has_root(place: &WorldReader, register: usize) -> bool
    ensures { result ≡ has_root place.now register }
{
    match place.rooted.get(register) {
        Some(rooted) => *rooted,
        None => false,
    }
}

#[tactic(auto, unfolding(crate::specs::reading::Closing::root_line))]
pub fn root_line(place: &mut WorldReader, count: usize, text: &[u8]) -> LineResult
    requires { IsReader place.old }
    ensures judged { Judged place.old place.new result (root_line place.old count (words_of text.now)) }
    ensures stays_sound { IsReader place.new }
{
    if count != 3 {
        return Err(WorldFault::Bad(Reason::WrongCount));
    }
    let (register, rest) = next_register(place.world.space.registers, text)?;
    let register = register as usize;
    if has_root(place, register) {
        return Err(WorldFault::Bad(Reason::RegisterTwice));
    }
    let (value, _) = next_value(rest)?;
    if let Some(number) = missing_value(place.world.objects.len(), None, value) {
        return Err(no_object(number));
    }
    place.world.roots.set(register, value);
    place.rooted[register] = true;
    place.part = Section::Roots;
    Ok(WorldStep::Next)
}

/// The word that closes a world: `end-world` in a world file, `trace` in an input.
pub fn closing_word(file: bool) -> &'static [u8]
    ensures { result.now ≡ closing_word file }
{
    if file { b"end-world" } else { b"trace" }
}

#[tactic(auto, unfolding(crate::specs::reading::Closing::closing_line))]
pub fn closing_line(place: &mut WorldReader, count: usize) -> LineResult
    requires { IsReader place.old }
    ensures judged { Judged place.old place.new result (closing_line place.old count) }
    ensures stays_sound { IsReader place.new }
{
    if count != 1 {
        return Err(WorldFault::Bad(Reason::WrongCount));
    }
    place.part = Section::Closed;
    if place.file {
        Ok(WorldStep::WorldEnds)
    } else {
        Ok(WorldStep::TraceBegins)
    }
}
