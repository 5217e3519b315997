//! Reading forms, with a stack of what remains to be read.
use crate::begun::{Inside, begin};
use crate::grammar::{closes, is_dot, misplaced, refusal, surplus};
use crate::labels::Labels;
use crate::made::{block_with, push_cons, push_hole, set_cons};
use crate::piece_reader::PieceReader;
use crate::task::ParseTask;
use crate::{Bracket, Parsed, SexprFault};
use lisp_graph::{Areas, Fields, NoMemory, Objects, Value};
use std::alloc::Global;

/// What was read so far of the pieces of a text.
#[derive(Drop)]
pub struct Forms<'a> {
    pub alloc: Global,
    pub pieces: PieceReader<'a>,
    pub labels: Labels,
    pub objects: Objects,
    /// What remains to be read of the forms that have begun. The last task is done first.
    pub tasks: Vec<ParseTask>,
}

impl<'a> Forms<'a> {
    ghost use Rattle.std.specs.Prelude.{◌≡◌, ◌<◌, ◌≤◌, ◌+◌, ◌^◌, ◌++◌, [], length, Result, Ok, OnOk, IfErr, true};
    ghost use Rattle.sexpr_text.specs.Pieces.{pieces_of, token_at};
    ghost use Rattle.std.specs.List.{All};
    ghost use Rattle.sexpr_text.specs.declared.fault.SexprFault.{SexprFault};
    ghost use Rattle.sexpr_text.specs.declared.task.ParseTask.TheVariants.{Conses as a_conses, Behind as a_behind, Close as a_close, Fields as some_fields};
    ghost use Rattle.sexpr_text.specs.Reading.{IsFault, MayGive, expression, is_dot};
    ghost use Rattle.sexpr_text.specs.Tasks.{AllLead, Fails, IsMade, TaskState, Steps, grown_value, holes_in, state_of, tasks_in};

    /// Begins to read a text after its header; that text begins in this line.
    pub fn new(alloc: Global, areas: &'a Areas, line: u64, text: &'a [u8]) -> Forms<'a>
        requires at_most { length areas.now ≤ 16 }
        requires in_range { line + length text.now < 2 ^ 63 }
        ensures value { result.pieces ≡ pieces_of areas.now line text.now }
        ensures labels { result.labels ≡ [] }
        ensures made { result.objects ≡ [] }
        ensures done { result.tasks.items ≡ [] }
    {
        Forms {
            alloc,
            pieces: PieceReader::new(areas, line, text),
            labels: Labels::new(alloc),
            objects: Objects::new(alloc),
            tasks: Vec::new(alloc),
        }
    }

    /// Enters a form whose beginning was read.
    fn enter(&mut self, inside: Inside) -> Result<(), NoMemory>
        ensures after { OnOk result (self.new.tasks.items ≡ self.old.tasks.items ++ tasks_in inside (length self.old.objects)) }
        ensures made { OnOk result (self.new.objects ≡ self.old.objects ++ holes_in inside) }
        ensures labels { self.new.labels ≡ self.old.labels }
        ensures unchanged { self.new.pieces ≡ self.old.pieces }
    {
        match inside {
            Inside::Nothing => {}
            Inside::Conses { area, bracket } => {
                self.tasks.push(ParseTask::Conses { area, bracket })?;
            }
            Inside::Block { area, code } => {
                let name = self.objects.len();
                push_hole(&mut self.objects)?;
                self.tasks.push(ParseTask::Fields {
                    name,
                    area,
                    code,
                    fields: Fields::new(self.alloc),
                })?;
            }
        }
        Ok(())
    }

    /// Reads the next cons of a list form, whose car is the next expression.
    fn cons(&mut self, area: u8, bracket: Bracket) -> Parsed
        ensures ok { OnOk result (Steps (a_conses area bracket) self.old.tasks.items (state_of self.old) self.new.tasks.items (state_of self.new)) }
        ensures err { IfErr result (λ fault. Fails (a_conses area bracket) (state_of self.old) fault) }
    {
        let name = self.objects.len();
        let Some(next) = name.checked_add(1) else {
            return Err(SexprFault::NoMemory);
        };
        let first = begin(&mut self.labels, &mut self.pieces, next)?;
        push_cons(&mut self.objects, area, bracket, first.value, Value::Nil)?;
        self.tasks.push(ParseTask::Behind {
            name,
            area,
            bracket,
            car: first.value,
        })?;
        self.enter(first.inside)?;
        Ok(())
    }

    /// Reads the cdr after the dot.
    fn dotted(&mut self, name: u64, area: u8, bracket: Bracket, car: Value) -> Parsed
        requires made { name < length self.old.objects }
        requires agrees { is_dot (token_at self.old.pieces) ≡ true }
        ensures ok { OnOk result (Steps (a_behind name area bracket car) self.old.tasks.items (state_of self.old) self.new.tasks.items (state_of self.new)) }
        ensures err { IfErr result (λ fault. Fails (a_behind name area bracket car) (state_of self.old) fault) }
    {
        self.pieces.advance();
        let first = begin(&mut self.labels, &mut self.pieces, self.objects.len())?;
        set_cons(&mut self.objects, name, area, bracket, car, first.value);
        self.tasks.push(ParseTask::Close { bracket })?;
        self.enter(first.inside)?;
        Ok(())
    }

    /// Reads what follows the car of a cons.
    fn behind(&mut self, name: u64, area: u8, bracket: Bracket, car: Value) -> Parsed
        requires made { name < length self.old.objects }
        ensures ok { OnOk result (Steps (a_behind name area bracket car) self.old.tasks.items (state_of self.old) self.new.tasks.items (state_of self.new)) }
        ensures err { IfErr result (λ fault. Fails (a_behind name area bracket car) (state_of self.old) fault) }
    {
        let token = self.pieces.token();
        if is_dot(token) {
            return self.dotted(name, area, bracket, car);
        }
        if closes(bracket, token) {
            self.pieces.advance();
            set_cons(&mut self.objects, name, area, bracket, car, Value::Nil);
            return Ok(());
        }
        let next = Value::Ref(self.objects.len());
        set_cons(&mut self.objects, name, area, bracket, car, next);
        self.cons(area, bracket)
    }

    /// Reads the closing bracket after a dotted cdr.
    fn close(&mut self, bracket: Bracket) -> Parsed
        ensures ok { OnOk result (Steps (a_close bracket) self.old.tasks.items (state_of self.old) self.new.tasks.items (state_of self.new)) }
        ensures err { IfErr result (λ fault. Fails (a_close bracket) (state_of self.old) fault) }
    {
        let token = self.pieces.token();
        if !closes(bracket, token) {
            return Err(refusal(&self.pieces, misplaced(token)));
        }
        self.pieces.advance();
        Ok(())
    }

    /// Reads the next field of a block, or its closing bracket.
    fn field(&mut self, name: u64, area: u8, code: u16, fields: Fields) -> Parsed
        requires made { name < length self.old.objects }
        requires at_most { length fields ≤ 2047 }
        ensures ok { OnOk result (Steps (some_fields name area code fields) self.old.tasks.items (state_of self.old) self.new.tasks.items (state_of self.new)) }
        ensures err { IfErr result (λ fault. Fails (some_fields name area code fields) (state_of self.old) fault) }
    {
        let token = self.pieces.token();
        if closes(Bracket::Curly, token) {
            self.pieces.advance();
            self.objects
                .set(name as usize, block_with(area, code, fields))?;
            return Ok(());
        }
        if fields.len() >= 2047 {
            return Err(refusal(&self.pieces, surplus(token)));
        }
        let first = begin(&mut self.labels, &mut self.pieces, self.objects.len())?;
        let mut fields = fields;
        fields.push(first.value)?;
        self.tasks.push(ParseTask::Fields {
            name,
            area,
            code,
            fields,
        })?;
        self.enter(first.inside)?;
        Ok(())
    }

    /// Does the next part of a task.
    fn step(&mut self, task: ParseTask) -> Parsed
        requires made { IsMade (length self.old.objects) task }
        ensures ok { OnOk result (Steps task self.old.tasks.items (state_of self.old) self.new.tasks.items (state_of self.new)) }
        ensures err { IfErr result (λ fault. Fails task (state_of self.old) fault) }
    {
        match task {
            ParseTask::Conses { area, bracket } => self.cons(area, bracket),
            ParseTask::Behind {
                name,
                area,
                bracket,
                car,
            } => self.behind(name, area, bracket, car),
            ParseTask::Close { bracket } => self.close(bracket),
            ParseTask::Fields {
                name,
                area,
                code,
                fields,
            } => self.field(name, area, code, fields),
        }
    }

    /// Does all tasks.
    fn run(&mut self) -> Parsed
        requires made { All (IsMade (length self.old.objects)) self.old.tasks.items }
        ensures ok { OnOk result ((after : Result TaskState SexprFault) → AllLead self.old.tasks.items (Ok (state_of self.old)) after → Ok (state_of self.new) ≡ after) }
        ensures done { OnOk result (self.new.tasks.items ≡ []) }
        ensures err { IfErr result (λ fault. (after : Result TaskState SexprFault) → AllLead self.old.tasks.items (Ok (state_of self.old)) after → IsFault fault after) }
    {
        while let Some(task) = self.tasks.pop() {
            self.step(task)?;
        }
        Ok(())
    }

    /// Reads an expression.
    pub fn expression(&mut self) -> Result<Value, SexprFault>
        requires idle { self.old.tasks.items ≡ [] }
        ensures value { MayGive (λ value. (value, state_of self.new)) result
            (grown_value self.old.objects (expression (length self.old.pieces) (length self.old.objects) self.old.labels self.old.pieces)) }
        ensures takes { OnOk result (length self.new.pieces < length self.old.pieces) }
        ensures done { OnOk result (self.new.tasks.items ≡ []) }
    {
        let first = begin(&mut self.labels, &mut self.pieces, self.objects.len())?;
        self.enter(first.inside)?;
        self.run()?;
        Ok(first.value)
    }
}
