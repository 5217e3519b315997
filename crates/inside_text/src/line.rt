//! Lines of words, and the spelling of memory words and sets of levels.
ghost use Rattle.std.specs.Prelude.{◌≡◌, ◌+◌, ◌<◌, ◌≤◌, ◌/◌, ◌%◌, ◌∷◌, ◌++◌, false, length, decimal, flat_map, map, OnErr};
ghost use Rattle.std.specs.Fmt.{digit_glyph};
ghost use Rattle.outer_ports.specs.Ports.{FailedLast, HasCause};
ghost use Rattle.outer_ports.specs.Buffers.{Gathers};
ghost use Rattle.inside_text.specs.Words.{left_words, level_text, levels_text, line, marked_line, without_comma, word_digits};

use itoa::Buffer;
use lisp_heap::Heap;
use outer_ports::{Sink, SinkBuffer, SinkFault, SwapMemory};
use paged_memory::PagedMemory;
use store_word::{Flags, Levels, Word};
use trace_text::ReplyText;

/// A heap over a memory of frames, whose swap device is in memory.
pub(crate) type PagedHeap = Heap<PagedMemory<SwapMemory>>;

/// Whether a text was gathered, or the sink failed.
pub(crate) type Told = Result<(), SinkFault>;

/// Gathers a space and a word.
fn tell_word<K: Sink>(buffer: &mut SinkBuffer, sink: &mut K, word: &[u8]) -> Told
    ensures gathers { Gathers (K.stands sink.old) (K.stands sink.new)
        buffer.old.pending buffer.new.pending (32 ∷ word.now) result }
    ensures cause { HasCause (K.faults sink.old) (K.faults sink.new) result }
    ensures last { OnErr result (FailedLast (K.faults sink.old) (K.faults sink.new) (K.failed sink.new)) }
{
    buffer.gather(sink, b" ")?;
    buffer.gather(sink, word)
}

/// Gathers words, each after a space.
fn tell_words<K: Sink>(buffer: &mut SinkBuffer, sink: &mut K, words: &[&[u8]]) -> Told
    ensures gathers { Gathers (K.stands sink.old) (K.stands sink.new)
        buffer.old.pending buffer.new.pending (flat_map (λ word. 32 ∷ word.now) words.now) result }
    ensures cause { HasCause (K.faults sink.old) (K.faults sink.new) result }
    ensures last { OnErr result (FailedLast (K.faults sink.old) (K.faults sink.new) (K.failed sink.new)) }
{
    for word in words {
        tell_word(buffer, sink, word)?;
    }
    Ok(())
}

/// Gathers a line that consists of these words.
pub(crate) fn tell_line<K: Sink>(
    buffer: &mut SinkBuffer,
    sink: &mut K,
    first: &[u8],
    words: &[&[u8]],
) -> Told
    ensures gathers { Gathers (K.stands sink.old) (K.stands sink.new)
        buffer.old.pending buffer.new.pending (line (first.now ∷ map (λ word. word.now) words.now)) result }
    ensures cause { HasCause (K.faults sink.old) (K.faults sink.new) result }
    ensures last { OnErr result (FailedLast (K.faults sink.old) (K.faults sink.new) (K.failed sink.new)) }
{
    buffer.gather(sink, first)?;
    tell_words(buffer, sink, words)?;
    buffer.gather(sink, b"\n")
}

/// Gathers a space and a number.
pub(crate) fn tell_number<K: Sink>(buffer: &mut SinkBuffer, sink: &mut K, number: u32) -> Told
    ensures gathers { Gathers (K.stands sink.old) (K.stands sink.new)
        buffer.old.pending buffer.new.pending (32 ∷ decimal number) result }
    ensures cause { HasCause (K.faults sink.old) (K.faults sink.new) result }
    ensures last { OnErr result (FailedLast (K.faults sink.old) (K.faults sink.new) (K.failed sink.new)) }
{
    let mut digits = Buffer::new();
    tell_word(buffer, sink, digits.format(number).as_bytes())
}

/// Appends a comma and a level, if the set contains the level.
fn push_level(text: &mut ReplyText, set: Levels, level: u8)
    requires from { 1 ≤ level }
    requires to { level ≤ 6 }
    requires room { length text.old ≤ 50 }
    ensures value { text.new ≡ text.old ++ level_text set.0 level }
    ensures at_most { length text.new ≤ length text.old + 2 }
{
    if set.intersects(Levels::one(level)) {
        text.push(&[b',', b'0' + level]);
    }
}

/// The levels of a set in ascending order, each after a comma.
pub(crate) fn levels_text(set: Levels) -> ReplyText
    ensures { result ≡ levels_text set.0 }
{
    let mut text = ReplyText::new();
    for place in 0..6u8 {
        push_level(&mut text, set, place + 1);
    }
    text
}

/// A text without its first comma, or a dash if it is empty.
pub(crate) fn without_comma(text: &ReplyText) -> &[u8]
    ensures { result.now ≡ without_comma text.now }
{
    let bytes = text.as_bytes();
    if bytes.is_empty() {
        return b"-";
    }
    &bytes[1..]
}

/// The hexadecimal digit of a number at this unit, a power of 16.
fn digit_at(bits: u64, unit: u64) -> u8
    requires { 0 < unit }
    ensures { result ≡ digit_glyph false (bits / unit % 16) }
{
    let value = (bits / unit % 16) as u8;
    if value < 10 {
        return b'0' + value;
    }
    b'a' + (value - 10)
}

/// The nine hexadecimal digits of a word.
fn word_digits(word: Word) -> [u8; 9]
    ensures { result ≡ word_digits word }
{
    let bits = word.bits();
    [
        digit_at(bits, 0x1_0000_0000),
        digit_at(bits, 0x1000_0000),
        digit_at(bits, 0x100_0000),
        digit_at(bits, 0x10_0000),
        digit_at(bits, 0x1_0000),
        digit_at(bits, 0x1000),
        digit_at(bits, 0x100),
        digit_at(bits, 0x10),
        digit_at(bits, 1),
    ]
}

/// Gathers a line with a number and digits, and with the word `left` if `left` is true.
fn tell_digits<K: Sink>(
    buffer: &mut SinkBuffer,
    sink: &mut K,
    first: &[u8],
    number: u32,
    digits: &[u8],
    left: bool,
) -> Told
    ensures gathers { Gathers (K.stands sink.old) (K.stands sink.new)
        buffer.old.pending buffer.new.pending (line (first.now ∷ decimal number ∷ digits.now ∷ left_words left)) result }
    ensures cause { HasCause (K.faults sink.old) (K.faults sink.new) result }
    ensures last { OnErr result (FailedLast (K.faults sink.old) (K.faults sink.new) (K.failed sink.new)) }
{
    let mut decimal = Buffer::new();
    let number = decimal.format(number).as_bytes();
    if left {
        return tell_line(buffer, sink, first, &[number, digits, b"left"]);
    }
    tell_line(buffer, sink, first, &[number, digits])
}

/// Gathers the line of a register, or of a word of memory: its number, its digits, and whether it has yet to be scanned.
pub(crate) fn tell_marked<K: Sink>(
    buffer: &mut SinkBuffer,
    sink: &mut K,
    first: &[u8],
    number: u32,
    word: Word,
    left: bool,
) -> Told
    ensures gathers { Gathers (K.stands sink.old) (K.stands sink.new)
        buffer.old.pending buffer.new.pending (marked_line first.now number word left) result }
    ensures cause { HasCause (K.faults sink.old) (K.faults sink.new) result }
    ensures last { OnErr result (FailedLast (K.faults sink.old) (K.faults sink.new) (K.failed sink.new)) }
{
    let digits = word_digits(word);
    tell_digits(buffer, sink, first, number, &digits, left)
}
