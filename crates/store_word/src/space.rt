//! The sizes of a world's store.

/// The sizes of a world's store, each within the limits that its field says.
#[derive(Clone, Copy, PartialEq, Eq, Debug)]
pub struct Space {
    /// Regions of 4,096 words: 5 to 1,024.
    pub regions: u32,

    /// Page frames of 256 words: 32 to 4,096.
    pub frames: u32,

    /// Registers of the program: 1 to 256.
    pub registers: u32,

    /// The greatest ephemeral level: 1 to 6.
    pub levels: u8,

    /// Units scanned for each word of an allocation's charge while a collection runs: 0 to 16.
    pub rate: u32,

    /// At index l - 1: the charge, in words, at which level l is flipped without a command; 0 for
    /// never. It is 0 above `levels`.
    pub capacity: [u32; 6],
}
