//! Laws of the format and of directories.
ghost use Rattle.std.specs.Prelude.{◌≡◌, ◌≤◌, ℕ, List, sum_by, true};
ghost use Rattle.std.specs.List.{All};
ghost use Rattle.band_disk.specs.Logs.{fresh};
ghost use Rattle.band_store.specs.Calls.{after_calls, all_calls};
ghost use Rattle.band_store.specs.Directory.{directory, is_ordered, last_text, listing, named, sizes};
ghost use Rattle.band_store.specs.Format.{BytesSayOneThing, Save, record_size};
ghost use Rattle.band_store.specs.Store.{IsOpenOn, Store};

/// The bytes of a disk contain at most one list of saves, or have their first damage at one position, or are no store, and
/// never two of these.
pub fn bytes_say_one_thing()
    ensures { BytesSayOneThing }
{}

/// The directory has the text of each name's last save, in the order of names. An open store lists these names with the
/// lengths of their texts.
pub fn directories_have_last_texts()
    ensures last { (saves : List Save) (name : List ℕ) → named name (directory saves) ≡ last_text name saves }
    ensures order { (saves : List Save) → is_ordered (directory saves) ≡ true }
    ensures listed { (store : Store) (bytes : List ℕ) (saves : List Save) → IsOpenOn store bytes saves → sizes store.bands ≡ listing (directory saves) }
{}

/// Saves that fit the room never fill the log of a disk in memory: on a new disk without a planned crash, each write and sync of these
/// saves succeeds. Required: each record has at least 24 bytes with its gate, as the record of each world file has.
pub fn saves_fit_the_log()
    ensures { (bytes : List ℕ) (room tear gate : ℕ) (saves : List Save) → All (λ save. 24 ≤ record_size save) saves → sum_by record_size saves ≤ room
        → (after_calls (fresh bytes room 0 tear) (all_calls gate saves)).faults ≡ 0 }
{}
