//! Writes the lines of objects one after another.
//!
//! A cons of charge 3 whose cdr is the next object may be in a group. So its line isn't written until the end of its list is found;
//! until then the cons *waits*. At most 1,024 conses wait.
ghost use Rattle.std.specs.Prelude.{◌≡◌, ℕ, ◌+◌, ◌<◌, ◌≤◌, ◌^◌, ◌++◌, [], ◌∷◌, List, length, OnOk};
ghost use Rattle.lisp_graph.specs.declared.object.Value.{Value};
ghost use Rattle.lisp_graph.specs.declared.object.Value.TheVariants.{Nil as nil_value, Ref as a_ref};
ghost use Rattle.lisp_graph.specs.declared.object.Body.TheVariants.{Cons as a_cons};
ghost use Rattle.world_text.specs.writing.Spelling.{ConsLine, RunLine};
ghost use Rattle.world_text.specs.writing.File.{text_of};
ghost use Rattle.world_text.specs.writing.Waiting.{Adds, HasRoomFor, IsWriter, WritesAll, link, next_number};

use crate::writing::file_lines::{push_cons, push_object};
use crate::writing::groups::{link_car, tail_car};
use crate::writing::text::{name_of, push_spaced_value};
use lisp_graph::{AreaRule, Object, Text, Value};
use std::alloc::Global;
use std::collections::VecDeque;
use store_word::NoMemory;

/// The text of the objects so far, and the cars of the conses that wait. These are of one area, and `first` is the number of
/// the first of them; if none waits, that of the next object.
#[derive(Drop)]
pub struct ObjectWriter {
    pub text: Text,
    pub first: u64,
    pub area: u8,
    pub cars: VecDeque<Value>,
}

impl ObjectWriter {
    /// A writer of the lines that follow this text.
    pub fn new(alloc: Global, text: Text) -> ObjectWriter
        ensures text { result.text ≡ text }
        ensures fresh { result.first ≡ 0 }
        ensures empty { result.cars.items ≡ [] }
    {
        ObjectWriter {
            text,
            first: 0,
            area: 0,
            cars: VecDeque::new(alloc),
        }
    }

    /// Writes the line of the first cons that waits, which is in no group.
    fn write_first(&mut self, areas: &[AreaRule]) -> Result<(), NoMemory>
        requires { self.old.first ≤ 2 ^ 32 }
        ensures after { OnOk result ((car : Value) (cars : List Value) → self.old.cars.items ≡ car ∷ cars → self.new.cars.items ≡ cars) }
        ensures text { OnOk result ((car : Value) (cars : List Value) → self.old.cars.items ≡ car ∷ cars → self.new.text ≡ self.old.text ++ text_of areas.now (ConsLine self.old.area car (a_ref (self.old.first + 1)) ∷ [])) }
        ensures count { OnOk result ((car : Value) (cars : List Value) → self.old.cars.items ≡ car ∷ cars → self.new.first ≡ self.old.first + 1) }
        ensures area { self.new.area ≡ self.old.area }
    {
        if let Some(car) = self.cars.pop_front() {
            self.first += 1;
            push_cons(
                &mut self.text,
                areas,
                self.area,
                car,
                Value::Ref(self.first),
            )?;
        }
        Ok(())
    }

    /// Writes the lines of the conses that wait, which are in no group.
    pub fn write_all(&mut self, areas: &[AreaRule]) -> Result<(), NoMemory>
        requires { IsWriter self.old }
        ensures { OnOk result (WritesAll areas.now self.old self.new) }
    {
        while !self.cars.is_empty() {
            self.write_first(areas)?;
        }
        Ok(())
    }

    /// Makes room for one more cons of this area. The conses of another area that wait are in no group, and neither is the first of
    /// 1,024.
    fn make_room(&mut self, areas: &[AreaRule], area: u8) -> Result<(), NoMemory>
        requires { IsWriter self.old }
        ensures { OnOk result (HasRoomFor areas.now area self.old self.new) }
    {
        if self.area != area {
            self.write_all(areas)?;
            self.area = area;
            return Ok(());
        }
        if self.cars.len() < 1024 {
            return Ok(());
        }
        self.write_first(areas)?;
        Ok(())
    }

    /// Writes the line of the group of the conses that wait.
    #[tactic(auto, using(std::proofs::Common::append_assoc))]
    fn write_group(&mut self, areas: &[AreaRule]) -> Result<(), NoMemory>
        requires { IsWriter self.old }
        ensures text { OnOk result (self.new.text ≡ self.old.text ++ text_of areas.now (RunLine self.old.area self.old.cars.items ∷ [])) }
        ensures empty { OnOk result (self.new.cars.items ≡ []) }
        ensures count { OnOk result (self.new.first ≡ next_number self.old) }
    {
        self.first += self.cars.len() as u64;
        self.text.push_all(b"run ")?;
        self.text.push_all(name_of(areas, self.area))?;
        while let Some(car) = self.cars.pop_front() {
            push_spaced_value(&mut self.text, car)?;
        }
        self.text.push_all(b"\n")
    }

    /// Adds a cons that ends a list.
    fn add_tail(&mut self, areas: &[AreaRule], area: u8, car: Value) -> Result<(), NoMemory>
        requires sound { IsWriter self.old }
        requires at_most { next_number self.old < 2 ^ 32 }
        ensures { OnOk result (Adds areas.now (record { area = area; charge = 3; body = a_cons car nil_value }) self.old self.new) }
    {
        self.make_room(areas, area)?;
        self.cars.push_back(car)?;
        self.write_group(areas)?;
        Ok(())
    }

    /// Adds a cons whose cdr is the next object.
    fn add_link(&mut self, areas: &[AreaRule], area: u8, car: Value) -> Result<(), NoMemory>
        requires sound { IsWriter self.old }
        requires at_most { next_number self.old < 2 ^ 32 }
        ensures { OnOk result (Adds areas.now (link area (next_number self.old) car) self.old self.new) }
    {
        self.make_room(areas, area)?;
        self.cars.push_back(car)?;
        Ok(())
    }

    /// Adds the next object.
    pub fn add(&mut self, areas: &[AreaRule], object: &Object) -> Result<(), NoMemory>
        requires sound { IsWriter self.old }
        requires at_most { next_number self.old < 2 ^ 32 }
        ensures { OnOk result (Adds areas.now object.now self.old self.new) }
    {
        if let Some(car) = tail_car(object) {
            return self.add_tail(areas, object.area, car);
        }
        let next = self.first + self.cars.len() as u64;
        if let Some(car) = link_car(object, next + 1) {
            return self.add_link(areas, object.area, car);
        }
        self.write_all(areas)?;
        self.first += 1;
        push_object(&mut self.text, areas, object)?;
        Ok(())
    }
}
