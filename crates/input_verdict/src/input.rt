//! The judge of the lines of an input.
ghost use Rattle.std.specs.Prelude.{◌≡◌};
ghost use Rattle.input_verdict.specs.Input.{first_judge};

use line_input::{InputReader, LineSpan};
use lisp_graph::World;
use std::alloc::Global;
use world_text::WorldBuilder;

/// What the lines so far mean.
#[derive(Drop)]
pub struct InputJudge {
    /// The lines up to `trace`.
    pub builder: WorldBuilder,
    /// Whether the line `end` was read.
    pub ended: bool,
}

/// A place between two lines of an input.
pub type JudgedInput = InputReader<InputJudge>;

/// What a line requests.
#[derive(Clone, Copy, Debug, PartialEq, Eq)]
pub enum LineEffect {
    Nothing,
    /// The world is whole, and a machine has to be opened for it.
    Opens,
    /// A command has to be run.
    Does,
}

/// A line that was judged: what it requests, and how long it is.
#[derive(Clone, Copy, Debug, PartialEq, Eq)]
pub struct JudgedLine {
    pub effect: LineEffect,
    pub found: LineSpan,
}

impl InputJudge {
    /// The judge before the first line.
    pub fn new(alloc: Global) -> InputJudge
        ensures { result ≡ first_judge }
    {
        InputJudge {
            builder: WorldBuilder::new(alloc),
            ended: false,
        }
    }

    /// Whether no line may follow.
    pub fn is_ended(&self) -> bool
        ensures { result ≡ self.now.ended }
    {
        self.ended
    }

    /// What the lines so far mean for the world; in the trace and after it, the whole world.
    pub fn world(&self) -> &World
        ensures { result.now ≡ self.now.builder.world }
    {
        self.builder.world()
    }
}
