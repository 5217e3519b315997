//! The class of a region, and the origin of a charge.

/// The area and the level of a region, and whether it is old. A live class and an old one of the
/// same area and level are two.
#[derive(Clone, Copy, PartialEq, Eq, Debug)]
pub struct Class {
    /// The place of the area in the world's list.
    pub area: u8,

    /// 0 to the greatest level.
    pub level: u8,

    /// Whether the region was condemned and isn't freed yet.
    pub stale: bool,
}

/// The origin of the charge for committed words.
#[derive(Clone, Copy, Debug)]
pub enum Origin {
    /// A new object, charged to the quota of its area.
    New,

    /// An object that moves: its charge moves from this old class.
    Moved(Class),

    /// A pair that the charge of a cell has already paid for. No charge is added.
    Reserve,
}
