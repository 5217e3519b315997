//! Reading a world line by line.
ghost use Rattle.std.specs.Prelude.{◌≡◌, true, false, None, Ok, IfErr, IfOk, IfSome, take};
ghost use Rattle.world_text.specs.declared.fault.WorldStep.TheVariants.{Next};
ghost use Rattle.world_text.specs.declared.reading.reader.Section.TheVariants.{Objects as AtObjects};
ghost use Rattle.world_text.specs.reading.Reader.{IsReader, Judged, NamesArea, is_closed, opening_place, step_to};
ghost use Rattle.world_text.specs.reading.Line.{line_at};
ghost use Rattle.world_text.specs.reading.Fast.{IsLineBeforeFeed};
ghost use Rattle.world_text.specs.reading.Limits.{IsAccepted, IsReached};
ghost use Rattle.world_text.specs.reading.Accepts.{AcceptsSpellings};

use crate::reading::fast::cons_before_feed;
use crate::reading::line::line_at;
use crate::{LineResult, Section, WorldReader};
use lisp_graph::{Areas, Fields, Objects, World};
use std::alloc::Global;
use std::marker::Model;
use store_word::Space;

/// Takes the lines of a world, one by one. Contracts see the place after the lines that were taken.
#[derive(Drop)]
pub struct WorldBuilder {
    alloc: Global,
    place: WorldReader,
}

impl Model for WorldBuilder {
    ghost use Rattle.world_text.specs.declared.reading.reader.WorldReader.{WorldReader};
    ghost use Rattle.world_text.specs.reading.Limits.{IsReached};

    ghost Value = { WorldReader };

    ghost view = { λ b. b.place };

    ghost invariant = { λ b. IsReached b.place };
}

impl WorldBuilder {
    fn opening(alloc: Global, file: bool) -> WorldBuilder
        ensures { result ≡ opening_place file }
    {
        let space = Space {
            regions: 0,
            frames: 0,
            registers: 0,
            levels: 0,
            rate: 0,
            capacity: [0; 6],
        };
        let world = World {
            space,
            areas: Areas::new(alloc),
            objects: Objects::new(alloc),
            roots: Fields::new(alloc),
        };
        WorldBuilder {
            alloc,
            place: WorldReader {
                file,
                part: Section::Opening,
                second: false,
                world,
                charged: [0; 16],
                rooted: [false; 256],
            },
        }
    }

    /// A builder for the lines of an input up to `trace`.
    pub fn new(alloc: Global) -> WorldBuilder
        ensures { result ≡ opening_place false }
    {
        WorldBuilder::opening(alloc, false)
    }

    /// A builder for the lines of a world file up to `end-world`.
    pub fn for_file(alloc: Global) -> WorldBuilder
        ensures { result ≡ opening_place true }
    {
        WorldBuilder::opening(alloc, true)
    }

    /// Takes the next line. A refused line leaves the builder unchanged.
    pub fn line(&mut self, line: &[u8]) -> LineResult
        ensures judged { Judged self.old self.new result (line_at self.old line.now) }
        ensures step { IfOk result (λ step. step ≡ step_to self.new) }
        ensures area { IfErr result (NamesArea self.new.world.areas) }
    {
        line_at(self.alloc, &mut self.place, line)
    }

    /// Takes the line at the front of a text, if it is `cons AREA V V`, a line feed follows it, and it is accepted. Returns how many bytes
    /// precede the line feed. If the result is None, the builder is unchanged, and `line` judges the line.
    #[inline(always)]
    pub fn cons_before_feed(&mut self, text: &[u8]) -> Option<usize>
        ensures found { IfSome result (IsLineBeforeFeed text.now) }
        ensures judged { IfSome result (λ size. line_at self.old (take size text.now) ≡ Ok (Next, self.new)) }
        ensures place { IfSome result (λ _. (self.old.part ≡ AtObjects) × (self.new.part ≡ AtObjects)) }
        ensures none { result ≡ None → self.new ≡ self.old }
    {
        cons_before_feed(&mut self.place, text)
    }

    /// The world that the lines so far mean: the whole world once they are closed.
    pub fn world(&self) -> &World
        ensures value { result.now ≡ self.now.world }
        ensures accepted { is_closed self.now.part ≡ true → IsAccepted result.now }
        ensures sound { IsReader self.now }
    {
        &self.place.world
    }

    /// Whether the last line that was taken closed the world.
    pub fn is_closed(&self) -> bool
        ensures { result ≡ is_closed self.now.part }
    {
        self.place.part == Section::Closed
    }

    /// Which lines may be next.
    pub fn part(&self) -> Section
        ensures { result ≡ self.now.part }
    {
        self.place.part
    }

    /// The world that the lines so far mean.
    pub fn so_far(self) -> World
        ensures value { result ≡ self.world }
        ensures sound { IsReached self }
    {
        self.place.world
    }

    /// The world, once its lines are closed.
    pub fn finish(self) -> World
        requires { is_closed self.part ≡ true }
        ensures value { result ≡ self.world }
        ensures accepted { IsAccepted result }
    {
        self.place.world
    }

    /// A line is accepted if and only if it is the spelling of what it means, and that is allowed in its place. What an area is
    /// charged is the sum of the charges of its objects so far.
    pub fn accepts_spellings(&self)
        ensures accepted { AcceptsSpellings self.now }
        ensures sound { IsReached self.now }
    {
        let _ = &self.place;
    }
}
