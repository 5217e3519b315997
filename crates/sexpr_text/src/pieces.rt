//! The length of a piece, the white space before it, and line numbers.
ghost use Rattle.std.specs.Prelude.{◌≡◌, ℕ, ◌+◌, ◌<◌, ◌≤◌, ◌^◌, ◌&&◌, not, List, false, length, position, IfSome, slice_index};
ghost use Rattle.lisp_graph.specs.declared.world.AreaRule.{AreaRule};
ghost use Rattle.sexpr_text.specs.Pieces.{is_edge, is_feed, is_last, is_unfinished, is_white, line_past, piece_length, pieces_from};

use crate::bracket::{closed_by, opened_by};

/// Whether this is a line feed.
pub fn is_feed(byte: u8) -> bool
    ensures { result ≡ is_feed byte }
{
    byte == b'\n'
}

fn is_last(byte: u8) -> bool
    ensures { result ≡ is_last byte }
{
    opened_by(byte).is_some() || byte == b'='
}

fn is_edge(byte: u8) -> bool
    ensures { result ≡ is_edge byte }
{
    byte == b' ' || is_feed(byte) || closed_by(byte).is_some() || is_last(byte)
}

/// Whether a piece ends before this byte.
pub fn is_stop(byte: u8) -> bool
    ensures { result ≡ (is_edge byte && not (is_last byte)) }
{
    is_edge(byte) && !is_last(byte)
}

fn first_edge(text: &[u8]) -> Option<usize>
    ensures value { result ≡ position is_edge text.now }
    ensures in_range { IfSome result (λ edge. edge < length text.now) }
{
    text.iter().position(|byte| is_edge(*byte))
}

/// How many bytes the piece has that begins here.
pub fn piece_length(text: &[u8]) -> usize
    requires { 0 < length text.now }
    ensures value { result ≡ piece_length text.now }
    ensures some { 0 < result }
    ensures in_range { result ≤ length text.now }
{
    let Some(edge) = first_edge(text) else {
        return text.len();
    };
    if edge == 0 || is_last(text[edge]) {
        return edge + 1;
    }
    edge
}

fn is_unfinished(text: &[u8]) -> bool
    ensures { result ≡ is_unfinished text.now }
{
    !text.is_empty() && !is_feed(text[text.len() - 1])
}

/// The number of the line after the last one, for a text that begins in this line.
pub fn line_past(line: u64, text: &[u8]) -> u64
    requires { line + length text.now < 2 ^ 63 }
    ensures { result ≡ line_past line text.now }
{
    let feeds = text.iter().filter(|byte| is_feed(**byte)).count();
    line + feeds as u64 + u64::from(is_unfinished(text))
}

/// The text after the white space of one that begins in this line, and the line in which it begins.
#[tactic(auto, unfolding(crate::specs::Pieces::pieces_from))]
pub fn skip_white(first: u64, text: &[u8]) -> (u64, &[u8])
    requires { first + length text.now < 2 ^ 63 }
    ensures unchanged { (areas : List AreaRule) (past : ℕ) → pieces_from areas past 0 result.0 result.1.now ≡ pieces_from areas past 0 first text.now }
    ensures at_most { result.0 + length result.1.now ≤ first + length text.now }
    ensures end { 0 < length result.1.now → is_white (slice_index result.1.now 0) ≡ false }
{
    let mut line = first;
    let mut rest = text;
    while let Some((byte, others)) = rest.split_first() {
        if is_feed(*byte) {
            line += 1;
        } else if *byte != b' ' {
            break;
        }
        rest = others;
    }
    (line, rest)
}
