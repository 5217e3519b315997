//! Objects of each kind are transported: a machine of two registers over any memory makes them, condemns them and settles them.

mod making;
mod relaying;
mod tests;
mod trial;
