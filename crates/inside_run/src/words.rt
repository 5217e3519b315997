//! The arguments of the program.
ghost use Rattle.std.specs.Prelude.{◌≡◌, ◌∷◌, []};
ghost use Rattle.inside_run.specs.Outcome.{fail_in, fail_of};

use world_text::number_in;

/// The number N in the argument `--fail=N`; none if it is another argument, or N isn't in range.
fn number_behind(word: &[u8]) -> Option<u32>
    ensures { result ≡ fail_in (word.now ∷ []) }
{
    if !word.starts_with(b"--fail=") {
        return None;
    }
    number_in(0, u32::MAX, &word[7..])
}

/// The number of the page call that has to fail, counted from 1: 0, so that none does, if there is no argument, and N, from 0 to 4,294,967,295, if
/// the arguments are `--fail N` or `--fail=N`. None if the arguments are refused.
pub fn fail_number(words: &[String]) -> Option<u32>
    ensures { result ≡ fail_of words.now }
{
    match words.len() {
        0 => Some(0),
        1 => number_behind(words[0].as_bytes()),
        2 => {
            if words[0].as_bytes() != b"--fail".as_slice() {
                return None;
            }
            number_in(0, u32::MAX, words[1].as_bytes())
        }
        _ => None,
    }
}
