//! Tests of a ground: of its areas and of its transports.
//!
//! `areas` fills one dynamic area over a flat memory (`one_area`), flips it, copies it and reclaims it.
//! `transports` has a machine of two registers over any memory, which makes objects of each kind, condemns them and settles them: a list
//! of pairs, a compact list or a block, all in one area at level 0. Contracts say that the ground represents them (`specs/Trials.antt`).
//! Begin reading at `transports`.
#![tactic(auto)]

#[cfg(test)]
mod areas;
#[cfg(test)]
mod transports;
