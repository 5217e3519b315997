//! What `cons`, `list` and `make` need to know of the object that they make.

/// The register that gets a new object, and the object's area and level.
#[derive(Clone, Copy, Debug)]
pub struct NewObject {
    /// The number of the register.
    pub to: u8,

    /// The place of the area in the world's list.
    pub area: u8,

    /// 0 to the greatest level.
    pub level: u8,
}
