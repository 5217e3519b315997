//! Judging one line.
ghost use Rattle.std.specs.Prelude.{◌≡◌, ◌≢◌, ◌<◌, ◌≤◌, ◌+◌, ◌^◌, length, take, true, false, None, Ok, IfErr, IfOk, IfSome, OnErr, OnOk};
ghost use Rattle.lisp_graph.specs.declared.command.Command.{Command as OneCommand};
ghost use Rattle.lisp_graph.specs.Commands.{IsRunnable};
ghost use Rattle.world_text.specs.Reader.{NamesArea, is_closed};
ghost use Rattle.world_text.specs.Limits.{IsAccepted};
ghost use Rattle.world_text.specs.Line.{line_at};
ghost use Rattle.world_text.specs.Fast.{IsLineBeforeFeed};
ghost use Rattle.trace_text.specs.Commands.{Run, trace_line};
ghost use Rattle.line_input.specs.Reader.{IsWholeLine};
ghost use Rattle.line_input.specs.Statuses.{status_of};
ghost use Rattle.input_verdict.specs.Events.{Does, event_of, events, trouble_at};
ghost use Rattle.input_verdict.specs.Places.{IsPlace, Judged, MayDo};
ghost use Rattle.input_verdict.specs.Verdict.{in_trace, judged_as, line_in, trace_next, world_next};

use crate::input::{JudgedInput, LineEffect};
use line_input::{LineReader, LineSpan, RunError, Status, world_trouble};
use lisp_graph::{Request, World};
use trace_text::{LineKind, read_fast, read_request};
use world_text::WorldFault;

/// Judges a line of the world.
#[inline(never)]
fn world_line(place: &mut JudgedInput, text: &[u8]) -> Result<LineEffect, WorldFault>
    ensures judged { (command : OneCommand) → Judged place.old place.new (events place.old result command) (world_next place.old (line_at place.old.judge.builder text.now)) }
    ensures count { (place.new.lines ≡ place.old.lines) × (place.new.bytes ≡ place.old.bytes) }
    ensures unchanged { OnErr result (place.new ≡ place.old) }
    ensures area { IfErr result (NamesArea place.old.judge.builder.world.areas) }
    ensures accepted { in_trace place.new ≡ true → OnOk result (IsAccepted place.new.judge.builder.world) }
    ensures allowed { (command : OneCommand) → IfOk result (λ step. MayDo place.new.judge.builder.world (event_of step command)) }
{
    match place.judge.builder.line(text) {
        Ok(_) => {}
        Err(fault) => return Err(fault),
    }
    if !place.judge.builder.is_closed() {
        return Ok(LineEffect::Nothing);
    }
    // This call gives the prover the invariant that a closed world is accepted.
    let _world = place.judge.builder.world();
    Ok(LineEffect::Opens)
}

/// Judges a line of the trace.
#[inline(always)]
fn trace_line(
    place: &mut JudgedInput,
    text: &[u8],
    command: &mut Request,
) -> Result<LineEffect, WorldFault>
    requires { is_closed place.old.judge.builder.part ≡ true }
    ensures judged { Judged place.old place.new (events place.old result command.new) (trace_next place.old (trace_line place.old.judge.builder.world.space place.old.judge.builder.world.areas text.now)) }
    ensures count { (place.new.lines ≡ place.old.lines) × (place.new.bytes ≡ place.old.bytes) }
    ensures unchanged { place.new.judge.builder ≡ place.old.judge.builder }
    ensures err { OnErr result (place.new ≡ place.old) }
    ensures area { IfErr result (NamesArea place.old.judge.builder.world.areas) }
    ensures refused { IfErr result (λ fault. status_of (trouble_at place.old fault) ≡ Status.Refused) }
    ensures allowed { IfOk result (λ step. MayDo place.new.judge.builder.world (event_of step command.new)) }
{
    let world = place.judge.builder.world();
    match read_request(text, &world.space, &world.areas, command) {
        Ok(LineKind::Command) => Ok(LineEffect::Does),
        Ok(LineKind::End) => {
            place.judge.ended = true;
            Ok(LineEffect::Nothing)
        }
        Err(reason) => Err(WorldFault::Bad(reason)),
    }
}

/// Judges a text as the next line.
#[inline(always)]
fn line_in(
    place: &mut JudgedInput,
    text: &[u8],
    command: &mut Request,
) -> Result<LineEffect, WorldFault>
    requires { IsPlace place.old }
    ensures judged { Judged place.old place.new (events place.old result command.new) (line_in place.old text.now) }
    ensures count { (place.new.lines ≡ place.old.lines) × (place.new.bytes ≡ place.old.bytes) }
    ensures unchanged { OnErr result (place.new ≡ place.old) }
    ensures area { IfErr result (NamesArea place.old.judge.builder.world.areas) }
    ensures early { IfErr result (λ fault. status_of (trouble_at place.old fault) ≢ Status.Refused → in_trace place.old ≡ false) }
    ensures accepted { in_trace place.new ≡ true → OnOk result (IsAccepted place.new.judge.builder.world) }
    ensures allowed { IfOk result (λ step. MayDo place.new.judge.builder.world (event_of step command.new)) }
{
    if place.judge.builder.is_closed() {
        trace_line(place, text, command)
    } else {
        world_line(place, text)
    }
}

/// The trouble if the line after this place is refused for this reason (`fault`).
pub fn run_error_of(place: &JudgedInput, fault: WorldFault) -> RunError
    requires at_most { place.now.lines < 2 ^ 50 }
    requires area { NamesArea place.now.judge.builder.world.areas fault }
    ensures value { result ≡ trouble_at place.now fault }
    ensures read { result ≢ RunError.Read }
    ensures swap { result ≢ RunError.Swap }
{
    world_trouble(place.lines + 1, place.judge.world().areas.as_slice(), fault)
}

/// The length of the line at the front of a text, if it is one of the most frequent commands and a line feed follows it. The command is
/// written to `command`.
#[inline(always)]
fn command_before_feed(world: &World, text: &[u8], command: &mut Request) -> Option<usize>
    requires { IsAccepted world.now }
    ensures found { IfSome result (IsLineBeforeFeed text.now) }
    ensures judged { IfSome result (λ size. trace_line world.now.space world.now.areas (take size text.now) ≡ Ok (Run command.new)) }
    ensures allowed { IfSome result (λ _. IsRunnable world.now command.new) }
{
    let rest = read_fast(&world.space, &world.areas, text, command)?;
    if rest.is_empty() || rest[0] != b'\n' {
        return None;
    }
    Some(text.len() - rest.len())
}

/// Goes past the next line if its line feed is buffered and it is one of the most frequent commands of the trace, which is written to `command`. It
/// looks at each byte once. Otherwise the place is unchanged, and the line is judged by `judge_line`.
#[inline(always)]
pub fn judge_buffered(
    place: &mut JudgedInput,
    reader: &LineReader,
    command: &mut Request,
) -> Option<LineSpan>
    requires { IsPlace place.old }
    ensures found { IfSome result (IsWholeLine reader.now) }
    ensures at_most { IfSome result (λ _. length reader.now.bytes ≤ 32769) }
    ensures judged { IfSome result (λ found. judged_as place.old (take found.length reader.now.bytes) found.size
        ≡ Ok (record { event = Does command.new; place = place.new })) }
    ensures stays_sound { IsPlace place.new }
    ensures none { result ≡ None → place.new ≡ place.old }
    ensures allowed { IfSome result (λ _. IsRunnable place.new.judge.builder.world command.new) }
{
    if !place.judge.builder.is_closed() || place.judge.ended || !place.has_room_for_a_line() {
        return None;
    }
    let length = command_before_feed(place.judge.builder.world(), reader.bytes(), command)?;
    place.advance(length + 1);
    Some(LineSpan {
        length,
        size: length + 1,
    })
}

/// Goes past the next line, which has this text and, including its line feed if it has one, this many bytes. A command is written to
/// `command`, so that it need not be moved. If the line is refused, or memory runs out, the place is unchanged, and
/// `run_error_of` makes the trouble to report from the error. If its status isn't `Refused`, the trace isn't reached.
#[inline(always)]
pub fn judge_line(
    place: &mut JudgedInput,
    text: &[u8],
    size: usize,
    command: &mut Request,
) -> Result<LineEffect, WorldFault>
    requires sound { IsPlace place.old }
    requires at_least { 1 ≤ size }
    requires at_most { size ≤ length text.now + 1 }
    ensures judged { Judged place.old place.new (events place.old result command.new) (judged_as place.old text.now size) }
    ensures stays_sound { OnOk result (IsPlace place.new) }
    ensures unchanged { OnErr result (place.new ≡ place.old) }
    ensures area { IfErr result (NamesArea place.old.judge.builder.world.areas) }
    ensures early { IfErr result (λ fault. status_of (trouble_at place.old fault) ≢ Status.Refused → in_trace place.old ≡ false) }
    ensures allowed { IfOk result (λ step. MayDo place.new.judge.builder.world (event_of step command.new)) }
{
    if let Some(reason) = place.broken_limit(place.judge.ended, text.len(), size) {
        return Err(WorldFault::Bad(reason));
    }
    let step = line_in(place, text, command)?;
    place.advance(size);
    Ok(step)
}
