//! A tag for each page in place of its marks: set if the page may have an address of level 1 or
//! more.
ghost use Rattle.std.specs.Prelude.{◌||◌, ◌↔◌, ◌⊎◌, IsTrue, ◌≡◌, ◌≤◌, ℕ, nat_lt, slice_index};
ghost use Rattle.store_word.specs.Sets.{HasLevel, Meets};
ghost use Rattle.mem_port.specs.Store.{level_of_word};
ghost use Rattle.mem_port.specs.Tags.{marks_of_tag, HasAddress, HasEphemeral};

use store_word::{Flags, Levels, REGION_WORDS, Word};

/// The level of the address that a word has, or 0. It is 0, too, for an address past the last
/// region.
pub fn word_level(levels: &[u8], word: Word) -> u8
    ensures { result ≡ level_of_word levels.now word }
{
    match word.address() {
        Some(at) => levels
            .get((at / REGION_WORDS) as usize)
            .copied()
            .unwrap_or(0),
        None => 0,
    }
}

/// Whether one of these words has an address of level 1 or more.
pub fn has_ephemeral(words: &[Word], levels: &[u8]) -> bool
    ensures { IsTrue result ↔ HasEphemeral words.now levels.now }
{
    for word in words {
        if word_level(levels, *word) > 0 {
            return true;
        }
    }
    false
}

/// Whether a page is tagged once a word is stored into it.
pub fn tag_after(tag: bool, levels: &[u8], word: Word) -> bool
    ensures { result ≡ (tag || nat_lt 0 (level_of_word levels.now word)) }
{
    tag || word_level(levels, word) > 0
}

/// Whether a page is tagged once these words are stored into it. They are looked at only if it was
/// not tagged before.
pub fn tag_with(tag: bool, words: &[Word], levels: &[u8]) -> bool
    ensures { IsTrue result ↔ (IsTrue tag ⊎ HasEphemeral words.now levels.now) }
{
    tag || has_ephemeral(words, levels)
}

/// Whether a tagged page stays tagged: if one of its words has an address of level 1 or more.
pub fn tag_anew(tag: bool, words: &[Word], levels: &[u8]) -> bool
    ensures { IsTrue result ↔ (IsTrue tag × HasEphemeral words.now levels.now) }
{
    tag && has_ephemeral(words, levels)
}

/// Whether the marks that a tag represents have one of these levels; `top` is the greatest level,
/// at most 6.
pub fn tag_meets(tag: bool, top: u8, levels: Levels) -> bool
    requires { top ≤ 6 }
    ensures { IsTrue result ↔ Meets (marks_of_tag top tag) levels.0 }
{
    tag && Levels::up_to(top).intersects(levels)
}

// The set with one more level, if it is 1 or more.
fn with_level(set: Levels, level: u8) -> Levels
    requires { level ≤ 6 }
    ensures { (l : ℕ) → 1 ≤ l → HasLevel result.0 l ↔ (HasLevel set.0 l ⊎ (l ≡ level)) }
{
    if level == 0 {
        return set;
    }
    set.union(Levels::one(level))
}

/// Exactly the levels, 1 or more, of the addresses in these words; `levels` has the level of each
/// region, 0 to 6.
pub fn levels_on(words: &[Word], levels: &[u8]) -> Levels
    requires { (region : ℕ) → slice_index levels.now region ≤ 6 }
    ensures { (l : ℕ) → 1 ≤ l → HasLevel result.0 l ↔ HasAddress words.now levels.now l }
{
    let mut set = Levels::empty();
    for word in words {
        set = with_level(set, word_level(levels, *word));
    }
    set
}
