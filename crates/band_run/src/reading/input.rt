//! What the lines so far mean.
ghost use Rattle.std.specs.Prelude.{◌≡◌};
ghost use Rattle.band_run.specs.Verdict.{new_file, start};

use crate::reading::command::Commands;
use lisp_graph::{Name, Text};
use std::alloc::Global;
use world_text::WorldBuilder;

/// A file to save, as far as its lines were read.
#[derive(Drop)]
pub struct BandFile {
    pub name: Name,
    /// Its lines, each with its line feed.
    pub text: Text,
    pub builder: WorldBuilder,
}

impl BandFile {
    /// The file to save under this name, before its first line.
    pub fn new(alloc: Global, name: Name) -> BandFile
        ensures { result ≡ new_file name }
    {
        BandFile {
            name,
            text: Text::new(alloc),
            builder: WorldBuilder::for_file(alloc),
        }
    }
}

/// An input, as far as its lines were read.
#[derive(Drop)]
pub struct BandInput {
    /// The commands so far. A save is one of them once its file is whole.
    pub commands: Commands,
    /// The file of a save, from the line after `save` up to `end-world`.
    pub file: Option<BandFile>,
    /// Whether the line `end` was read.
    pub ended: bool,
}

impl BandInput {
    /// The input before its first line.
    pub fn start(alloc: Global) -> BandInput
        ensures { result ≡ start }
    {
        BandInput {
            commands: Commands::new(alloc),
            file: None,
            ended: false,
        }
    }
}
