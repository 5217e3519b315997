//! The rows of a census.
ghost use Rattle.std.specs.Prelude.{◌≡◌};
ghost use Rattle.why_held.specs.Census.{same_code};

use lisp_graph::Sequence;

/// The conses of an area, if the code is None, or its blocks of one code: how many they are, and what they are charged
/// together, in words.
#[derive(Clone, Copy, Debug, PartialEq, Eq)]
pub struct CensusRow {
    pub area: u8,
    pub code: Option<u16>,
    pub count: u64,
    pub charge: u64,
}

/// The rows of a census: in the order of areas, and in each area conses first, then blocks by ascending code.
pub type CensusRows = Sequence<CensusRow>;

/// What a census uses of an object: its area, the code of a block or None for a cons, and its charge in words.
#[derive(Clone, Copy, Debug)]
pub struct Counted {
    pub area: u8,
    pub code: Option<u16>,
    pub charge: u32,
}

/// Whether two kinds of objects have one code.
pub(crate) fn same_code(code: Option<u16>, other: Option<u16>) -> bool
    ensures { result ≡ same_code code other }
{
    match (code, other) {
        (None, None) => true,
        (Some(code), Some(other)) => code == other,
        _ => false,
    }
}
