//! A place between two lines of a world.
use lisp_graph::World;

/// Which lines may be next.
#[derive(Clone, Copy, Debug, PartialEq, Eq)]
pub enum Section {
    /// The first line.
    Opening,
    /// The `space` line.
    Sizing,
    /// The first `area` line.
    FirstArea,
    /// An `area` line, or after the last one the `capacity` line in format 2, and any later line in format 1.
    Areas,
    /// An object line or any later line.
    Objects,
    /// A `root` line or the line that closes the world.
    Roots,
    /// No line.
    Closed,
}

/// What the lines so far mean.
#[derive(Drop)]
pub struct WorldReader {
    /// A world file: `end-world` closes it instead of `trace`.
    pub file: bool,
    pub part: Section,
    /// Format 2.
    pub second: bool,
    /// The sizes, the areas, the objects and the roots that were read so far.
    pub world: World,
    /// What the objects of each area so far are charged, in words.
    pub charged: [u32; 16],
    /// Which registers had a `root` line.
    pub rooted: [bool; 256],
}
