//! Which objects a memory and the table of its regions represent.
//!
//! The layers that write objects state by `GroundInvariant` (`specs/GroundInvariant.antt`) that a ground represents them:
//! its image (`specs/Image.antt`) keeps the invariant of `lisp_meaning`. The functions are laws,
//! with empty bodies: what the calls of a ground and of `obj_layout` mean for the objects.
#![tactic(auto)]

mod changes;
mod image;
mod objects;

pub use changes::{
    commits_are_allowed, flips_and_reclaims_keep_machines, new_objects_keep_grounds,
    objects_are_laid_anew, places_have_room, places_keep_grounds, stores_change_objects,
    words_keep_grounds,
};
pub use image::{collections_agree, fresh_grounds_stand, grounds_are_machines, regions_are_chains};
pub use objects::{
    cells_have_runs, charges_are_words, finals_are_places, references_lead_to_objects,
    words_are_read_alike,
};
