//! Printing values, with a stack of what remains to be printed.
ghost use Rattle.std.specs.Prelude.{◌≡◌, ◌<◌, length, slice_get, IfSome};
ghost use Rattle.lisp_graph.specs.Groups.{is_nil};
ghost use Rattle.lisp_graph.specs.Graph.{RefersBelow, object_at};
ghost use Rattle.lisp_graph.specs.declared.object.Body.TheVariants.{Cons as a_cons};
ghost use Rattle.lisp_graph.specs.Objects.{body_copied};
ghost use Rattle.std.specs.Option.{option_map};
ghost use Rattle.sexpr_print.specs.Marks.{shared_in};
ghost use Rattle.sexpr_print.specs.Printing.{bracket_of, next_of};
ghost use Rattle.sexpr_print.specs.Tasks.{fields_in};

use crate::printed::Printed;
use crate::task::PrintTask;
use crate::token_text::{TokenText, number_token};
use lisp_graph::{AreaRule, BodyRef, NoMemory, Objects, Value, World};
use sexpr_text::{Bracket, Token};

/// The brackets of a list form.
fn bracket_of(charge: u32) -> Bracket
    ensures { result ≡ bracket_of charge }
{
    if charge == 2 {
        Bracket::Round
    } else {
        Bracket::Square
    }
}

/// Whether a value is `nil`.
pub fn is_nil(value: Value) -> bool
    ensures { result ≡ is_nil value }
{
    matches!(value, Value::Nil)
}

/// A cons that continues a list form.
#[derive(Clone, Copy)]
struct Next {
    name: u64,
    car: Value,
    cdr: Value,
}

/// The next cons of a list form: the cdr, if it is a cons of the same area and charge that is neither shared nor printed.
fn next_of(objects: &Objects, printed: &Printed, area: u8, charge: u32, cdr: Value) -> Option<Next>
    requires size { length printed.now.counts ≡ length objects.now }
    requires refers { RefersBelow (length objects.now) cdr }
    ensures value { option_map (λ next. next.name) result ≡ next_of objects.now (shared_in printed.now.counts) printed.now.names area charge cdr }
    ensures some { IfSome result (λ next. (object_at objects.now next.name).body ≡ a_cons next.car next.cdr) }
    ensures in_range { IfSome result (λ next. next.name < length objects.now) }
{
    let Value::Ref(name) = cdr else {
        return None;
    };
    let object = objects.at(name as usize);
    let BodyRef::Cons { car, cdr } = object.body else {
        return None;
    };
    let goes = object.area == area
        && object.charge == charge
        && !printed.is_shared(name)
        && printed.label(name).is_none();
    if goes {
        Some(Next { name, car, cdr })
    } else {
        None
    }
}

/// The field of a block at this index.
fn field_at(body: BodyRef<'_>, index: u64) -> Option<Value>
    ensures value { result ≡ slice_get (fields_in (body_copied body.entry)) index }
    ensures in_range { IfSome result (λ _. index < length (fields_in (body_copied body.entry))) }
{
    match body {
        BodyRef::Cons { .. } => None,
        BodyRef::Block { fields, .. } => fields.get(index as usize).copied(),
    }
}

/// What was printed so far, and what remains to be printed of the forms that have begun.
#[derive(Drop)]
pub struct Printer {
    pub printed: Printed,
    pub text: TokenText,
    /// The last task is done first.
    pub tasks: Vec<PrintTask>,
}

impl Printer {
    ghost use Rattle.std.specs.Prelude.{◌≡◌, ◌<◌, ◌++◌, [], ◌∷◌, length, pos, None, Some, OnOk};
    ghost use Rattle.std.specs.List.{All};
    ghost use Rattle.lisp_graph.specs.Graph.{IsGraph, RefersBelow};
    ghost use Rattle.lisp_graph.specs.World.{opening};
    ghost use Rattle.lisp_graph.specs.declared.object.Value.TheVariants.{Fix as a_fix, Ref as a_ref};
    ghost use Rattle.sexpr_print.specs.declared.task.PrintTask.TheVariants.{Value as a_value, Rest as a_rest, Fields as some_fields, Close as a_close};
    ghost use Rattle.sexpr_print.specs.Marks.{label_in};
    ghost use Rattle.sexpr_print.specs.Tasks.{IsTask, Opens, Ran, Steps, Wrote};
    ghost use Rattle.sexpr_print.specs.Writing.{Adds};
    ghost use Rattle.sexpr_text.specs.declared.bracket.Bracket.TheVariants.{Curly as a_curly};
    ghost use Rattle.sexpr_text.specs.declared.token.Token.TheVariants.{Atom as an_atom, Dot as a_dot, Open as an_open};

    /// Begins a cons, after its opening bracket or the element before it.
    fn cons(&mut self, area: u8, charge: u32, car: Value, cdr: Value) -> Result<(), NoMemory>
        ensures after { OnOk result (self.new.tasks.items ≡ self.old.tasks.items ++ (a_rest area charge cdr ∷ a_value car ∷ [])) }
        ensures unchanged { self.new.printed ≡ self.old.printed }
        ensures text { self.new.text ≡ self.old.text }
    {
        self.tasks.push(PrintTask::Rest { area, charge, cdr })?;
        self.tasks.push(PrintTask::Value(car))?;
        Ok(())
    }

    /// Begins a block.
    fn block(&mut self, areas: &[AreaRule], name: u64, area: u8, code: u16) -> Result<(), NoMemory>
        ensures after { OnOk result (self.new.tasks.items ≡ self.old.tasks.items ++ some_fields name 0 ∷ []) }
        ensures unchanged { self.new.printed ≡ self.old.printed }
        ensures text { OnOk result (Adds areas.now (an_open (Some area) a_curly ∷ an_atom (a_fix (pos code)) ∷ []) self.old.text self.new.text) }
    {
        let open = Token::Open {
            area: Some(area),
            bracket: Bracket::Curly,
        };
        self.text.add(areas, open)?;
        self.text.add(areas, number_token(code))?;
        self.tasks.push(PrintTask::Fields { name, index: 0 })?;
        Ok(())
    }

    /// Prints the form of an object, up to its first value.
    fn form(&mut self, world: &World, name: u64) -> Result<(), NoMemory>
        requires graph { IsGraph (opening world.now) }
        requires in_range { name < length world.now.objects }
        ensures { OnOk result (Opens world.now name self.old self.new) }
    {
        let areas = world.areas.as_slice();
        let object = world.objects.at(name as usize);
        match object.body {
            BodyRef::Cons { car, cdr } => {
                let open = Token::Open {
                    area: Some(object.area),
                    bracket: bracket_of(object.charge),
                };
                self.text.add(areas, open)?;
                self.cons(object.area, object.charge, car, cdr)
            }
            BodyRef::Block { code, .. } => self.block(areas, name, object.area, code),
        }
    }

    /// Prints an object for the first time: its label, if it is shared, and its form up to its first value.
    fn first(&mut self, world: &World, name: u64) -> Result<(), NoMemory>
        requires graph { IsGraph (opening world.now) }
        requires size { length self.old.printed.counts ≡ length world.now.objects }
        requires in_range { name < length world.now.objects }
        requires first { label_in self.old.printed name ≡ None }
        ensures { OnOk result (Steps world.now (a_value (a_ref name)) self.old.tasks.items self.old self.new) }
    {
        let label = self.printed.add(name)?;
        self.text.add_label(world.areas.as_slice(), label)?;
        self.form(world, name)
    }

    /// Prints a value, up to the first value in its form.
    fn value(&mut self, world: &World, value: Value) -> Result<(), NoMemory>
        requires graph { IsGraph (opening world.now) }
        requires size { length self.old.printed.counts ≡ length world.now.objects }
        requires refers { RefersBelow (length world.now.objects) value }
        ensures { OnOk result (Steps world.now (a_value value) self.old.tasks.items self.old self.new) }
    {
        let areas = world.areas.as_slice();
        let Value::Ref(name) = value else {
            return self.text.add(areas, Token::Atom(value));
        };
        match self.printed.label(name) {
            Some(label) => self.text.add(areas, Token::Again(label)),
            None => self.first(world, name),
        }
    }

    /// Prints the dot, and leaves the last cdr of a list form to be printed.
    fn dotted(&mut self, areas: &[AreaRule], bracket: Bracket, cdr: Value) -> Result<(), NoMemory>
        ensures after { OnOk result (self.new.tasks.items ≡ self.old.tasks.items ++ (a_close bracket ∷ a_value cdr ∷ [])) }
        ensures unchanged { self.new.printed ≡ self.old.printed }
        ensures text { OnOk result (Adds areas.now (a_dot ∷ []) self.old.text self.new.text) }
    {
        self.text.add(areas, Token::Dot)?;
        self.tasks.push(PrintTask::Close(bracket))?;
        self.tasks.push(PrintTask::Value(cdr))?;
        Ok(())
    }

    /// Prints what follows the car of a cons whose cdr doesn't continue the list form.
    fn last(&mut self, world: &World, area: u8, charge: u32, cdr: Value) -> Result<(), NoMemory>
        requires refers { RefersBelow (length world.now.objects) cdr }
        requires none { next_of world.now.objects (shared_in self.old.printed.counts) self.old.printed.names area charge cdr ≡ None }
        ensures { OnOk result (Steps world.now (a_rest area charge cdr) self.old.tasks.items self.old self.new) }
    {
        let areas = world.areas.as_slice();
        let bracket = bracket_of(charge);
        if is_nil(cdr) {
            return self.text.add(areas, Token::Close(bracket));
        }
        self.dotted(areas, bracket, cdr)
    }

    /// Prints what follows the car of a cons, up to the next value that is a reference or to the end of the list form.
    fn rest(&mut self, world: &World, area: u8, charge: u32, cdr: Value) -> Result<(), NoMemory>
        requires graph { IsGraph (opening world.now) }
        requires size { length self.old.printed.counts ≡ length world.now.objects }
        requires refers { RefersBelow (length world.now.objects) cdr }
        ensures { OnOk result (Steps world.now (a_rest area charge cdr) self.old.tasks.items self.old self.new) }
    {
        let mut cdr = cdr;
        while let Some(next) = next_of(&world.objects, &self.printed, area, charge, cdr) {
            self.printed.add(next.name)?;
            if let Value::Ref(_) = next.car {
                return self.cons(area, charge, next.car, next.cdr);
            }
            let element = Token::Atom(next.car);
            self.text.add(world.areas.as_slice(), element)?;
            cdr = next.cdr;
        }
        self.last(world, area, charge, cdr)
    }

    /// Prints the fields of a block from an index on, up to the next value.
    fn fields(&mut self, world: &World, name: u64, index: u64) -> Result<(), NoMemory>
        requires graph { IsGraph (opening world.now) }
        requires in_range { name < length world.now.objects }
        ensures { OnOk result (Steps world.now (some_fields name index) self.old.tasks.items self.old self.new) }
    {
        let object = world.objects.at(name as usize);
        let Some(value) = field_at(object.body, index) else {
            let close = Token::Close(Bracket::Curly);
            return self.text.add(world.areas.as_slice(), close);
        };
        let index = index + 1;
        self.tasks.push(PrintTask::Fields { name, index })?;
        self.tasks.push(PrintTask::Value(value))?;
        Ok(())
    }

    /// Does the next part of a task.
    fn step(&mut self, world: &World, task: PrintTask) -> Result<(), NoMemory>
        requires graph { IsGraph (opening world.now) }
        requires size { length self.old.printed.counts ≡ length world.now.objects }
        requires sound { IsTask (length world.now.objects) task }
        ensures { OnOk result (Steps world.now task self.old.tasks.items self.old self.new) }
    {
        match task {
            PrintTask::Value(value) => self.value(world, value),
            PrintTask::Rest { area, charge, cdr } => self.rest(world, area, charge, cdr),
            PrintTask::Fields { name, index } => self.fields(world, name, index),
            PrintTask::Close(bracket) => {
                let close = Token::Close(bracket);
                self.text.add(world.areas.as_slice(), close)
            }
        }
    }

    /// Does all tasks.
    fn run(&mut self, world: &World) -> Result<(), NoMemory>
        requires graph { IsGraph (opening world.now) }
        requires size { length self.old.printed.counts ≡ length world.now.objects }
        requires sound { All (IsTask (length world.now.objects)) self.old.tasks.items }
        ensures { OnOk result (Ran world.now self.old self.new) }
    {
        while let Some(task) = self.tasks.pop() {
            self.step(world, task)?;
        }
        Ok(())
    }

    /// Prints a value. It may be nested as deep as memory allows.
    pub fn print(&mut self, world: &World, value: Value) -> Result<(), NoMemory>
        requires graph { IsGraph (opening world.now) }
        requires size { length self.old.printed.counts ≡ length world.now.objects }
        requires refers { RefersBelow (length world.now.objects) value }
        requires idle { self.old.tasks.items ≡ [] }
        ensures value { OnOk result (Wrote world.now value self.old self.new) }
        ensures done { OnOk result (self.new.tasks.items ≡ []) }
    {
        self.tasks.push(PrintTask::Value(value))?;
        self.run(world)
    }
}
