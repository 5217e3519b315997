//! Tests of the top call: whole runs over devices in memory, whose calls fail as planned. Tests of the layers below it, too: how
//! `command_words` reads command lines, how `line_input` finds lines, and how `input_verdict` judges an input line by line.
//!
//! The crate has no public item. `run` has one run and what is compared of it, `cases` the tables of whole runs; each other module has
//! tests, some with a table of their own.
#![tactic(auto)]

#[cfg(test)]
mod cases;
#[cfg(test)]
mod devices;
#[cfg(test)]
mod engine;
#[cfg(test)]
mod paging;
#[cfg(test)]
mod readers;
#[cfg(test)]
mod run;
#[cfg(test)]
mod sessions;
#[cfg(test)]
mod words;
