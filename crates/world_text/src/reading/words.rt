//! The words of a line.
ghost use Rattle.std.specs.Prelude.{◌≡◌, ◌<◌, ◌+◌, IfSome, Some, None, is_some, if◌then◌else◌, length, drop, position};
ghost use Rattle.world_text.specs.reading.Words.{first_word, is_space, is_well_formed, words_of};

/// The place of the first space.
fn first_space(text: &[u8]) -> Option<usize>
    ensures { result ≡ position is_space text.now }
{
    text.iter().position(|byte| *byte == b' ')
}

/// The first word, and the text after the space that follows it. Both are empty if no word remains.
pub fn next_word(text: &[u8]) -> (&[u8], &[u8])
    ensures word { result.0.now ≡ first_word (words_of text.now) }
    ensures unchanged { words_of result.1.now ≡ drop 1 (words_of text.now) }
{
    match first_space(text) {
        Some(end) => (&text[..end], &text[end + 1..]),
        None => (text, &text[text.len()..]),
    }
}

/// How many words the line has, or None if it isn't well formed.
#[tactic(auto, using(crate::proofs::reading_laws::WordCount::counted_is))]
fn word_count(text: &[u8]) -> Option<usize>
    ensures value { result ≡ (if is_well_formed text.now then Some (length (words_of text.now)) else None) }
    ensures some { IfSome result (λ count. 0 < count) }
{
    let mut in_word = false;
    let mut count = 0;
    for byte in text {
        match *byte {
            b' ' if in_word => in_word = false,
            33..=126 => {
                if !in_word {
                    count += 1;
                }
                in_word = true;
            }
            _ => return None,
        }
    }
    if in_word { Some(count) } else { None }
}

/// For a well-formed line: its first word, how many words it has, and the text after the first. None if and only if the
/// line isn't well formed.
pub fn split_line(text: &[u8]) -> Option<(&[u8], usize, &[u8])>
    ensures value { is_some result ≡ is_well_formed text.now }
    ensures first { IfSome result (λ x. x.0.now ≡ first_word (words_of text.now)) }
    ensures count { IfSome result (λ x. x.1 ≡ length (words_of text.now)) }
    ensures unchanged { IfSome result (λ x. words_of x.2.now ≡ drop 1 (words_of text.now)) }
    ensures after { IfSome result (λ x. x.1 ≡ length (words_of x.2.now) + 1) }
{
    let count = word_count(text)?;
    let (head, rest) = next_word(text);
    Some((head, count, rest))
}
