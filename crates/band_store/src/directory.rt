//! Names in order, each with the extent of its text.
ghost use Rattle.std.specs.Prelude.{◌≡◌, ◌+◌, ◌≤◌, None, Some, true, MatchResult, OnOk, OnErr, vec_capacity, vec_len};
ghost use Rattle.band_store.specs.Directory.{IsAt, IsGap, is_ordered, named, put_name};

use lisp_graph::{Name, NoMemory};
use std::cmp::Ordering;

/// The position of a text on the disk, and its length, in bytes.
#[derive(Clone, Copy, Debug, Drop, PartialEq, Eq)]
pub struct Extent {
    pub at: u64,
    pub size: u32,
}

/// The position of the name in the list, or, as an error, the position at which it would be inserted.
fn place_of(bands: &[(Name, Extent)], name: &[u8]) -> Result<usize, usize>
    requires { is_ordered bands.now ≡ true }
    ensures { MatchResult result (IsAt bands.now name.now) (IsGap bands.now name.now) }
{
    let mut low = 0;
    let mut high = bands.len();
    while low < high {
        let mid = low + (high - low) / 2;
        match name.cmp(bands[mid].0.as_bytes()) {
            Ordering::Less => high = mid,
            Ordering::Equal => return Ok(mid),
            Ordering::Greater => low = mid + 1,
        }
    }
    Err(low)
}

/// The extent of the text of a name, if the list has the name.
pub fn extent_of(bands: &[(Name, Extent)], name: &[u8]) -> Option<Extent>
    requires { is_ordered bands.now ≡ true }
    ensures { result ≡ named name.now bands.now }
{
    match place_of(bands, name) {
        Ok(at) => Some(bands[at].1),
        Err(_) => None,
    }
}

/// Gives a name another extent, or inserts the name. Memory can run out only if the list is full.
pub fn put_name(
    bands: &mut Vec<(Name, Extent)>,
    name: &Name,
    extent: Extent,
) -> Result<(), NoMemory>
    requires { is_ordered bands.old.items ≡ true }
    ensures ok { OnOk result (bands.new.items ≡ put_name name.now extent bands.old.items) }
    ensures err { OnErr result (bands.new.items ≡ bands.old.items) }
    ensures at_most { OnErr result (vec_capacity bands.old ≤ vec_len bands.old) }
{
    match place_of(bands, name.as_bytes()) {
        Ok(at) => {
            bands[at] = (name.copy(), extent);
            Ok(())
        }
        Err(at) => {
            bands.insert(at, (name.copy(), extent))?;
            Ok(())
        }
    }
}
