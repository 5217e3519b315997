//! The objects of a world.
ghost use Rattle.std.specs.Prelude.{◌≡◌, ℕ, ◌<◌, ◌++◌, [], ◌∷◌, List, length, slice_set, take, IfOk, OnOk, OnErr};
ghost use Rattle.lisp_graph.specs.Graph.{object_at};
ghost use Rattle.lisp_graph.specs.Objects.{IsCell, body_copied, body_in, cons_object, cons_parts, object_copied, object_in, value_in};
ghost use Rattle.lisp_graph.specs.declared.object.Value.{Value as a_value};

use crate::{Body, Fields, Object, Value};
use std::alloc::Global;
use std::marker::Model;
use store_word::NoMemory;

/// Which value a part of a cons is.
#[derive(Clone, Copy, Debug, PartialEq, Eq)]
enum Kind {
    Fix,
    Nil,
    Ref,
}

/// What a cell holds: a cons of values of these kinds, or a block.
#[derive(Clone, Copy, Debug, PartialEq, Eq)]
enum Shape {
    Cons { car: Kind, cdr: Kind },
    Block,
}

/// An object in 24 bytes. The numbers of a cons are those of its car and of its cdr: the bits of a number, or a name. Those of a
/// block are the place of its fields among the fields of blocks, and its code.
#[derive(Clone, Copy, Debug)]
struct Cell {
    area: u8,
    shape: Shape,
    charge: u32,
    first: u64,
    second: u64,
}

const _: () = prove!(size_of::<Cell>() == 24);

/// Objects, each named by its place. A cons takes 24 bytes.
#[derive(Debug, Drop)]
pub struct Objects {
    cells: Vec<Cell>,
    blocks: Vec<Fields>,
}

impl Model for Objects {
    ghost use Rattle.std.specs.Prelude.{List, length, map};
    ghost use Rattle.std.specs.List.{All};
    ghost use Rattle.lisp_graph.specs.declared.object.Object.{Object};
    ghost use Rattle.lisp_graph.specs.Objects.{IsCell, object_in};

    ghost Value = { List Object };

    ghost view = { λ s. map (object_in s.blocks.items) s.cells.items };

    ghost invariant = { λ s. All (IsCell (length s.blocks.items)) s.cells.items };
}

/// What an object is made of. The fields of a block are borrowed from the list of objects.
#[derive(Clone, Copy, Debug)]
pub enum BodyRef<'a> {
    Cons { car: Value, cdr: Value },
    Block { code: u16, fields: &'a [Value] },
}

/// An object of a list of objects.
#[derive(Clone, Copy, Debug)]
pub struct ObjectRef<'a> {
    pub area: u8,
    pub charge: u32,
    pub body: BodyRef<'a>,
}

/// The kind of a value, and its number.
#[inline(always)]
fn number_of(value: Value) -> (Kind, u64)
    ensures { value_in result.0 result.1 ≡ value }
{
    match value {
        Value::Fix(number) => (Kind::Fix, number.cast_unsigned() as u64),
        Value::Nil => (Kind::Nil, 0),
        Value::Ref(name) => (Kind::Ref, name),
    }
}

/// The value of this kind with this number.
#[inline(always)]
fn value_in(kind: Kind, number: u64) -> Value
    ensures { result ≡ value_in kind number }
{
    match kind {
        Kind::Fix => Value::Fix(((number % (1 << 32)) as u32).cast_signed()),
        Kind::Nil => Value::Nil,
        Kind::Ref => Value::Ref(number),
    }
}

/// The cell of a cons.
#[inline(always)]
fn cons_cell(area: u8, charge: u32, car: Value, cdr: Value) -> Cell
    ensures value { (blocks : List (List a_value)) → object_in blocks result ≡ cons_object area charge car cdr }
    ensures sound { (count : ℕ) → IsCell count result }
{
    let (car, first) = number_of(car);
    let (cdr, second) = number_of(cdr);
    Cell {
        area,
        shape: Shape::Cons { car, cdr },
        charge,
        first,
        second,
    }
}

/// The cell of an object. The fields of a block are added to the blocks.
fn cell_of(blocks: &mut Vec<Fields>, object: Object) -> Result<Cell, NoMemory>
    ensures value { IfOk result (λ cell. object_in blocks.new.items cell ≡ object) }
    ensures sound { IfOk result (λ cell. IsCell (length blocks.new.items) cell) }
    ensures grows { (more : List (List a_value)) × (blocks.new.items ≡ blocks.old.items ++ more) }
{
    let Object { area, charge, body } = object;
    match body {
        Body::Cons { car, cdr } => Ok(cons_cell(area, charge, car, cdr)),
        Body::Block { code, fields } => {
            let first = blocks.len() as u64;
            blocks.push(fields)?;
            Ok(Cell {
                area,
                shape: Shape::Block,
                charge,
                first,
                second: u64::from(code),
            })
        }
    }
}

/// What the object in a cell is made of.
#[inline(always)]
fn body_in(blocks: &[Fields], cell: Cell) -> BodyRef<'_>
    requires { IsCell (length blocks.now) cell }
    ensures { body_copied result ≡ body_in blocks.now cell }
{
    match cell.shape {
        Shape::Cons { car, cdr } => BodyRef::Cons {
            car: value_in(car, cell.first),
            cdr: value_in(cdr, cell.second),
        },
        Shape::Block => BodyRef::Block {
            code: (cell.second % (1 << 16)) as u16,
            fields: blocks[cell.first as usize].as_slice(),
        },
    }
}

impl Objects {
    /// No objects. The list takes no memory yet.
    pub fn new(alloc: Global) -> Objects
        ensures { result ≡ [] }
    {
        Objects {
            cells: Vec::new(alloc),
            blocks: Vec::new(alloc),
        }
    }

    /// How many objects there are, which is the next name.
    #[inline(always)]
    pub fn len(&self) -> u64
        ensures { result ≡ length self.now }
    {
        self.cells.len() as u64
    }

    /// The object with this name.
    #[inline(always)]
    pub fn at(&self, name: usize) -> ObjectRef<'_>
        requires { name < length self.now }
        ensures { object_copied result ≡ object_at self.now name }
    {
        let cell = self.cells[name];
        ObjectRef {
            area: cell.area,
            charge: cell.charge,
            body: body_in(&self.blocks, cell),
        }
    }

    /// The area of the object with this name.
    #[inline(always)]
    pub fn area_of(&self, name: usize) -> u8
        requires { name < length self.now }
        ensures { result ≡ (object_at self.now name).area }
    {
        self.cells[name].area
    }

    /// What the object with this name is charged, in words.
    #[inline(always)]
    pub fn charge_of(&self, name: usize) -> u32
        requires { name < length self.now }
        ensures { result ≡ (object_at self.now name).charge }
    {
        self.cells[name].charge
    }

    /// What the object with this name is made of.
    #[inline(always)]
    pub fn body(&self, name: usize) -> BodyRef<'_>
        requires { name < length self.now }
        ensures { body_copied result ≡ (object_at self.now name).body }
    {
        self.at(name).body
    }

    /// The car and the cdr of the cons with this name; None if it is the name of a block.
    #[inline(always)]
    pub fn cons_at(&self, name: usize) -> Option<(Value, Value)>
        requires { name < length self.now }
        ensures { result ≡ cons_parts (object_at self.now name).body }
    {
        match self.body(name) {
            BodyRef::Cons { car, cdr } => Some((car, cdr)),
            BodyRef::Block { .. } => None,
        }
    }

    /// Adds an object under the next name. If memory runs out, the list is unchanged and the object is dropped.
    pub fn push(&mut self, object: Object) -> Result<(), NoMemory>
        ensures ok { OnOk result (self.new ≡ self.old ++ object ∷ []) }
        ensures err { OnErr result (self.new ≡ self.old) }
    {
        let cell = cell_of(&mut self.blocks, object)?;
        self.cells.push(cell)?;
        Ok(())
    }

    /// Adds a cons under the next name. If memory runs out, the list is unchanged.
    #[inline(always)]
    pub fn push_cons(
        &mut self,
        area: u8,
        charge: u32,
        car: Value,
        cdr: Value,
    ) -> Result<(), NoMemory>
        ensures ok { OnOk result (self.new ≡ self.old ++ cons_object area charge car cdr ∷ []) }
        ensures err { OnErr result (self.new ≡ self.old) }
    {
        self.cells.push(cons_cell(area, charge, car, cdr))?;
        Ok(())
    }

    /// Replaces the object with this name. If memory runs out, the list is unchanged and the new object is dropped. The list keeps
    /// the memory of a block that is replaced.
    pub fn set(&mut self, name: usize, object: Object) -> Result<(), NoMemory>
        requires { name < length self.old }
        ensures ok { OnOk result (self.new ≡ slice_set self.old name object) }
        ensures err { OnErr result (self.new ≡ self.old) }
    {
        let cell = cell_of(&mut self.blocks, object)?;
        self.cells[name] = cell;
        Ok(())
    }

    /// Replaces the object with this name by a cons. The list keeps the memory of a block that is replaced.
    #[inline(always)]
    pub fn set_cons(&mut self, name: usize, area: u8, charge: u32, car: Value, cdr: Value)
        requires { name < length self.old }
        ensures { self.new ≡ slice_set self.old name (cons_object area charge car cdr) }
    {
        self.cells[name] = cons_cell(area, charge, car, cdr);
    }

    /// Removes all objects after the first `count`. The list keeps the memory of the blocks among them.
    pub fn truncate(&mut self, count: usize)
        ensures { self.new ≡ take count self.old }
    {
        self.cells.truncate(count);
    }
}
