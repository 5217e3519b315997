//! Words that are read one after another, up to one that a test wants.
ghost use Rattle.std.specs.Prelude.{ℕ, ◌↔◌, ◌≤◌, IsTrue, length};
ghost use Rattle.mem_port.specs.Reading.{Passes};
ghost use Rattle.store_word.specs.Words.{Parts};

use store_word::{PAGE_WORDS, Word};

/// A test of words.
pub trait WordTest {
    /// Whether a word is wanted.
    ghost wanted: { Self → Parts → Type 0 };

    /// Whether a word is wanted.
    fn wants(&self, word: Word) -> bool
        ensures { IsTrue result ↔ wanted self.now word };
}

/// How many of these words, at most 256, precede the first that is wanted: all of them if none is.
#[inline]
pub fn words_before<T: WordTest>(words: &[Word], test: &T) -> u32
    requires { length words.now ≤ PAGE_WORDS }
    ensures { Passes words.now (T.wanted test.now) 0 (length words.now) result }
{
    for (i, word) in words.iter().enumerate() {
        if test.wants(*word) {
            return i as u32;
        }
    }
    words.len() as u32
}
