//! Loads a world's objects and roots into a new machine.
//!
//! Each object is made with the parts that are known by then, and then the other parts are stored, so at each moment the
//! machine represents a state (`specs/Loading.antt`). Begin with `load`. `laws` has what holds of the objects of a
//! world meanwhile (`specs/Drafts.antt`): there is no code in it, each law is the contract of a function.
#![tactic(auto)]

mod drafts;
mod fault;
mod filling;
mod groups;
mod laws;
mod loading;
mod places;

pub use fault::LoadFault;
pub use laws::{drafts_are_charged, drafts_are_filled, groups_are_lists, more_objects_are_made};
pub use loading::load;
