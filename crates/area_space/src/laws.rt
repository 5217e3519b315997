//! Laws of grounds that the contract of no single call can state.
ghost use Rattle.std.specs.Prelude.{◌≡◌, ℕ, ◌+◌, ◌*◌, ◌/◌, ◌%◌, ◌<◌, ◌≤◌, List, Some};
ghost use Rattle.lisp_graph.specs.declared.world.AreaRule.{AreaRule};
ghost use Rattle.store_word.specs.Words.{Parts, address_of};
ghost use Rattle.mem_port.specs.Store.{Store, IsFresh, Stores, StoresNothing, Remarks};
ghost use Rattle.area_space.specs.Table.{Table, areas_of, levels_of, slot_of, used_of, quota_of, IsUnclassed};
ghost use Rattle.area_space.specs.Sound.{IsTable};
ghost use Rattle.area_space.specs.Room.{RoomRule, words_of_area};
ghost use Rattle.area_space.specs.Fresh.{fresh, RoomRuleFor};
ghost use Rattle.area_space.specs.History.{Call, LeadsThrough, HasPlace};
ghost use Rattle.area_space.specs.Ground.{IsGround, NamesNoFree};
ghost use Rattle.area_space.specs.UsedWords.{UsedWordsOfClasses};

use store_word::{MAX_OBJECT_WORDS, REGION_WORDS};

/// The room rule suffices. Begin with any table that has the properties of a new one, and
/// make calls one after another, each as its conditions require. The last table has the properties
/// of the first. And if the first keeps the room rule, there is a place in the last for 1 to 2,048 words
/// in each area, at each level, as long as the used words of the area and these are together at most
/// twice its quota.
pub fn room_suffices()
    ensures stays_sound { (first last : Table) (calls : List Call) → IsTable first → LeadsThrough calls first last → IsTable last }
    ensures place { (first last : Table) (calls : List Call) → IsTable first → RoomRule first → LeadsThrough calls first last
        → (area level words : ℕ) → area < areas_of last → level < levels_of last → 0 < words → words ≤ MAX_OBJECT_WORDS
        → words_of_area last area + words ≤ 2 * quota_of last area → HasPlace last (slot_of last area level) words }
{}

/// A new table keeps the room rule if the regions suffice for all areas of its world: each area
/// wants one for each 1,024 words of its quota, rounded up, and two for each level, level 0 among
/// them.
pub fn accepted_worlds_have_room()
    ensures { (regions top : ℕ) (rules : List AreaRule) → RoomRuleFor regions top rules → RoomRule (fresh regions top rules) }
{}

/// A new memory and a new table of its regions are a ground in which no word has an address.
pub fn fresh_ground()
    ensures ground { (s : Store) (regions top : ℕ) (rules : List AreaRule) → IsFresh s regions top → IsGround s (fresh regions top rules) }
    ensures named { (s : Store) (regions top : ℕ) (rules : List AreaRule) → IsFresh s regions top → NamesNoFree s (fresh regions top rules) }
{}

/// A ground remains one if a word is stored below the used end of its region, provided that the
/// word has no address in a free region.
pub fn stores_keep_ground()
    ensures ground { (old new : Store) (t : Table) (at : ℕ) (word : Parts) → IsGround old t → Stores old new at word
        → at % REGION_WORDS < used_of t (at / REGION_WORDS) → IsGround new t }
    ensures named { (old new : Store) (t : Table) (at : ℕ) (word : Parts) → NamesNoFree old t → Stores old new at word
        → ((to : ℕ) → address_of word.content ≡ Some to → IsUnclassed t (to / REGION_WORDS) → ⊥) → NamesNoFree new t }
{}

/// A ground remains one if no word is stored.
pub fn reads_keep_ground()
    ensures ground { (old new : Store) (t : Table) → IsGround old t → StoresNothing old new → IsGround new t }
    ensures named { (old new : Store) (t : Table) → NamesNoFree old t → StoresNothing old new → NamesNoFree new t }
{}

/// A ground remains one if a page is marked again.
pub fn remarks_keep_ground()
    ensures ground { (old new : Store) (t : Table) (page : ℕ) → IsGround old t → Remarks old new page → IsGround new t }
    ensures named { (old new : Store) (t : Table) (page : ℕ) → NamesNoFree old t → Remarks old new page → NamesNoFree new t }
{}

/// What the calls do to the used words of each class: a region that is opened adds none, a commit
/// adds its words to the class of the place alone, a flip moves the words of a condemned live class
/// to the old one, and a reclaim keeps those of the live classes.
pub fn used_words_of_classes()
    ensures { UsedWordsOfClasses }
{}
