//! The part of an input before its trace.
use crate::{Areas, Fields, Name, Objects};
use store_word::Space;

/// How an area takes part in collections.
#[derive(Clone, Copy, Debug, PartialEq, Eq)]
pub enum AreaKind {
    /// Its objects are never condemned.
    Static,
    /// Its objects are at level 0.
    Dynamic,
    /// Its new objects are at level 1.
    Ephemeral,
}

/// An area: its name, its kind, and how many words its objects may be charged, at most 1,048,576.
#[derive(Debug, Drop)]
pub struct AreaRule {
    pub name: Name,
    pub kind: AreaKind,
    pub quota: u32,
}

/// A machine before its first command: 1 to 16 areas, the objects in the order of their names, and a root for each register.
#[derive(Debug, Drop)]
pub struct World {
    pub space: Space,
    pub areas: Areas,
    pub objects: Objects,
    pub roots: Fields,
}
