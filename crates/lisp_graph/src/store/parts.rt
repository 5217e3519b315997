//! The commands of the program that make no object.
ghost use Rattle.std.specs.Prelude.{◌≡◌, ◌<◌, length};
ghost use Rattle.lisp_graph.specs.Graph.{IsGraph, RefersBelow};
ghost use Rattle.lisp_graph.specs.Effect.{Answers, fetched, with_body};
ghost use Rattle.lisp_graph.specs.Commands.{InRegisters};
ghost use Rattle.lisp_graph.specs.Store.{graph_of};

use super::Store;
use crate::{Body, Command, Object, Reply, Value};

impl Store {
    pub(super) fn set(&mut self, to: u8, value: Value) -> Reply
        requires { InRegisters (length self.old.registers) (Command.Set to value) }
        ensures { Answers (graph_of self.old) (Command.Set to value) result (graph_of self.new) }
    {
        self.registers.set(to as usize, value);
        Reply::Fine
    }

    pub(super) fn copy_register(&mut self, to: u8, from: u8) -> Reply
        requires { InRegisters (length self.old.registers) (Command.Move to from) }
        ensures { Answers (graph_of self.old) (Command.Move to from) result (graph_of self.new) }
    {
        let value = self.register(from);
        self.registers.set(to as usize, value);
        Reply::Fine
    }

    pub(super) fn car(&mut self, to: u8, from: u8) -> Reply
        requires graph { IsGraph (graph_of self.old) }
        requires registers { InRegisters (length self.old.registers) (Command.Car to from) }
        ensures { Answers (graph_of self.old) (Command.Car to from) result (graph_of self.new) }
    {
        match self.find_cons(self.register(from)) {
            Some((_, car, _)) => self.fetch(to, car),
            None => Reply::WrongType,
        }
    }

    pub(super) fn cdr(&mut self, to: u8, from: u8) -> Reply
        requires graph { IsGraph (graph_of self.old) }
        requires registers { InRegisters (length self.old.registers) (Command.Cdr to from) }
        ensures { Answers (graph_of self.old) (Command.Cdr to from) result (graph_of self.new) }
    {
        match self.find_cons(self.register(from)) {
            Some((_, _, cdr)) => self.fetch(to, cdr),
            None => Reply::WrongType,
        }
    }

    pub(super) fn rplaca(&mut self, target: u8, from: u8) -> Reply
        requires graph { IsGraph (graph_of self.old) }
        requires registers { InRegisters (length self.old.registers) (Command.Rplaca target from) }
        ensures { Answers (graph_of self.old) (Command.Rplaca target from) result (graph_of self.new) }
    {
        let car = self.register(from);
        match self.find_cons(self.register(target)) {
            Some((name, _, cdr)) => {
                self.set_body(name, Body::Cons { car, cdr });
                Reply::Fine
            }
            None => Reply::WrongType,
        }
    }

    pub(super) fn rplacd(&mut self, target: u8, from: u8) -> Reply
        requires graph { IsGraph (graph_of self.old) }
        requires registers { InRegisters (length self.old.registers) (Command.Rplacd target from) }
        ensures { Answers (graph_of self.old) (Command.Rplacd target from) result (graph_of self.new) }
    {
        let cdr = self.register(from);
        match self.find_cons(self.register(target)) {
            Some((name, car, _)) => {
                self.set_body(name, Body::Cons { car, cdr });
                Reply::Fine
            }
            None => Reply::WrongType,
        }
    }

    pub(super) fn get(&mut self, to: u8, from: u8, index: u32) -> Reply
        requires graph { IsGraph (graph_of self.old) }
        requires registers { InRegisters (length self.old.registers) (Command.Get to from index) }
        ensures { Answers (graph_of self.old) (Command.Get to from index) result (graph_of self.new) }
    {
        let Some((_, _, fields)) = self.find_block(self.register(from)) else {
            return Reply::WrongType;
        };
        match fields.get(index as u64).copied() {
            Some(value) => self.fetch(to, value),
            None => Reply::NoField {
                length: fields.len() as u16,
            },
        }
    }

    pub(super) fn put(&mut self, target: u8, index: u32, from: u8) -> Reply
        requires graph { IsGraph (graph_of self.old) }
        requires registers { InRegisters (length self.old.registers) (Command.Put target index from) }
        ensures { Answers (graph_of self.old) (Command.Put target index from) result (graph_of self.new) }
    {
        let value = self.register(from);
        let Some((name, _, fields)) = self.find_block(self.register(target)) else {
            return Reply::WrongType;
        };
        let length = fields.len() as u16;
        if index >= length as u32 {
            return Reply::NoField { length };
        }
        self.objects.set_field(name, index as usize, value);
        Reply::Fine
    }

    pub(super) fn size(&self, of: u8) -> Reply
        requires graph { IsGraph (graph_of self.now) }
        requires registers { InRegisters (length self.now.registers) (Command.Size of) }
        ensures { Answers (graph_of self.now) (Command.Size of) result (graph_of self.now) }
    {
        match self.find_block(self.register(of)) {
            Some((_, _, fields)) => Reply::Number(fields.len() as i32),
            None => Reply::WrongType,
        }
    }

    pub(super) fn eq(&self, left: u8, right: u8) -> Reply
        requires { InRegisters (length self.now.registers) (Command.Eq left right) }
        ensures { Answers (graph_of self.now) (Command.Eq left right) result (graph_of self.now) }
    {
        if self.register(left) == self.register(right) {
            Reply::True
        } else {
            Reply::Nil
        }
    }

    /// Gives the object with this name another body.
    fn set_body(&mut self, name: u64, body: Body)
        requires { name < length self.old.objects }
        ensures { graph_of self.new ≡ with_body (graph_of self.old) name body }
    {
        let Object { area, charge, .. } = *self.object(name);
        self.objects.set(name, Object { area, charge, body });
    }

    /// Shows a value, and writes it to a register.
    fn fetch(&mut self, to: u8, value: Value) -> Reply
        requires graph { IsGraph (graph_of self.old) }
        requires in_range { to < length self.old.registers }
        requires refers { RefersBelow (length self.old.objects) value }
        ensures value { result ≡ (fetched (graph_of self.old) to value).reply }
        ensures sound { graph_of self.new ≡ (fetched (graph_of self.old) to value).graph }
    {
        let reply = self.shown(value);
        self.registers.set(to as usize, value);
        reply
    }
}
