//! The commands of the program that make or widen objects.
ghost use Rattle.std.specs.Prelude.{◌≡◌, ◌<◌, ◌+◌, ◌^◌, ◌==◌, ◌++◌, length, map, take, if◌then◌else◌, IfOk, OnOk, OnErr};
ghost use Rattle.std.specs.List.{All};
ghost use Rattle.lisp_graph.specs.Graph.{IsGraph, value_at};
ghost use Rattle.lisp_graph.specs.Effect.{Allocates, Answers, list_from};
ghost use Rattle.lisp_graph.specs.Commands.{InRegisters};
ghost use Rattle.lisp_graph.specs.Store.{graph_of};

use super::{Store, value_at};
use crate::object_map::ObjectMap;
use crate::{Body, Command, Fields, Items, Object, Reply, Value};
use store_word::NoMemory;

/// The cdr of the cons with this name in a list, if `left` conses follow it: the next cons, or nil at the end.
fn link(name: u64, left: usize) -> Value
    requires { name + 1 < 2 ^ 64 }
    ensures { result ≡ (if left == 0 then Value.Nil else Value.Ref (name + 1)) }
{
    if left == 0 {
        Value::Nil
    } else {
        Value::Ref(name + 1)
    }
}

/// Adds the conses of a list of these registers' values.
fn push_cells(
    objects: &mut ObjectMap,
    registers: &[Value],
    area: u8,
    items: &[u8],
) -> Result<(), NoMemory>
    requires { All (λ item. item < length registers.now) items.now }
    ensures ok { OnOk result (objects.new ≡ objects.old ++ list_from area (length objects.old) (map (value_at registers.now) items.now)) }
    ensures err { OnErr result (take (length objects.old) objects.new ≡ objects.old) }
{
    for (index, item) in items.iter().enumerate() {
        let car = value_at(registers, *item);
        let cdr = link(objects.len(), items.len() - index - 1);
        objects.push(Object {
            area,
            charge: 3,
            body: Body::Cons { car, cdr },
        })?;
    }
    Ok(())
}

impl Store {
    pub(super) fn cons(&mut self, to: u8, area: u8, car: u8, cdr: u8) -> Result<Reply, NoMemory>
        requires { InRegisters (length self.old.registers) (Command.Cons to area car cdr) }
        ensures ok { IfOk result (λ reply. Answers (graph_of self.old) (Command.Cons to area car cdr) reply (graph_of self.new)) }
        ensures err { OnErr result (graph_of self.new ≡ graph_of self.old) }
    {
        let name = self.objects.len();
        let body = Body::Cons {
            car: self.register(car),
            cdr: self.register(cdr),
        };
        self.objects.push(Object {
            area,
            charge: 2,
            body,
        })?;
        self.registers.set(to as usize, Value::Ref(name));
        Ok(Reply::Fine)
    }

    pub(super) fn list(&mut self, to: u8, area: u8, items: &Items) -> Result<Reply, NoMemory>
        requires { InRegisters (length self.old.registers) (Command.List to area items.now) }
        ensures ok { IfOk result (λ reply. Answers (graph_of self.old) (Command.List to area items.now) reply (graph_of self.new)) }
        ensures err { OnErr result (graph_of self.new ≡ graph_of self.old) }
    {
        let first = self.objects.len();
        if let Err(error) = push_cells(
            &mut self.objects,
            self.registers.as_slice(),
            area,
            items.as_slice(),
        ) {
            self.objects.truncate(first);
            return Err(error);
        }
        self.registers.set(to as usize, Value::Ref(first));
        Ok(Reply::Fine)
    }

    pub(super) fn make(
        &mut self,
        to: u8,
        area: u8,
        code: u16,
        count: u16,
    ) -> Result<Reply, NoMemory>
        requires { InRegisters (length self.old.registers) (Command.Make to area code count) }
        ensures ok { IfOk result (λ reply. Answers (graph_of self.old) (Command.Make to area code count) reply (graph_of self.new)) }
        ensures err { OnErr result (graph_of self.new ≡ graph_of self.old) }
    {
        let name = self.objects.len();
        let mut fields = Fields::new(self.alloc);
        fields.pad(count as usize, Value::Nil)?;
        self.objects.push(Object {
            area,
            charge: count as u32 + 1,
            body: Body::Block { code, fields },
        })?;
        self.registers.set(to as usize, Value::Ref(name));
        Ok(Reply::Fine)
    }

    pub(super) fn grow(&mut self, target: u8, wanted: u16) -> Result<Reply, NoMemory>
        requires graph { IsGraph (graph_of self.old) }
        requires registers { InRegisters (length self.old.registers) (Command.Grow target wanted) }
        ensures ok { IfOk result (λ reply. Answers (graph_of self.old) (Command.Grow target wanted) reply (graph_of self.new)) }
        ensures err { OnErr result (graph_of self.new ≡ graph_of self.old) }
        ensures cause { OnErr result (Allocates (graph_of self.old) (Command.Grow target wanted)) }
    {
        let Some((name, code, fields)) = self.find_block(self.register(target)) else {
            return Ok(Reply::WrongType);
        };
        let length = fields.len() as u16;
        if wanted <= length {
            return Ok(Reply::Fine);
        }
        let count = wanted.max((2 * length + 1).min(2047));
        let mut wider = Fields::from_slice(self.alloc, fields.as_slice())?;
        wider.pad(count as usize, Value::Nil)?;
        let area = self.object(name).area;
        self.objects.set(
            name,
            Object {
                area,
                charge: count as u32 + 1,
                body: Body::Block {
                    code,
                    fields: wider,
                },
            },
        );
        Ok(Reply::Fine)
    }
}
