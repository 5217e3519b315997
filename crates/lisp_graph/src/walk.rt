//! Walks over the objects that a machine holds.
ghost use Rattle.std.specs.Prelude.{◌≡◌, ◌<◌, ℕ, length, slice_get, Some, true, IfOk};
ghost use Rattle.lisp_graph.specs.Cause.{HasCause};
ghost use Rattle.lisp_graph.specs.KeyedGraph.{KeyedGraph, Shows, cons_at};
ghost use Rattle.lisp_graph.specs.declared.walk.Seen.TheVariants.{Cons as a_cons};

use store_word::SwapFault;

/// A value as a walk shows it: a number, nil, or the key of an object.
#[derive(Clone, Copy, Debug, PartialEq, Eq)]
pub enum Seen {
    Fix(i32),
    Nil,
    Cons(u64),
    Block(u64),
}

/// What a walk shows of an object: its area, its code and number of fields, and its charge in words. A cons has code 0 and
/// two fields: its car, then its cdr. `Seen` distinguishes it from a block of the same form.
#[derive(Clone, Copy, Debug, PartialEq, Eq)]
pub struct Form {
    pub area: u8,
    pub code: u16,
    pub length: u16,
    pub charge: u32,
}

/// A cons as a walk shows it: its area, its charge in words, and its two fields.
#[derive(Clone, Copy, Debug, PartialEq, Eq)]
pub struct SeenCons {
    pub area: u8,
    pub charge: u32,
    pub car: Seen,
    pub cdr: Seen,
}

/// Shows registers and objects, and changes none. A caller passes only keys that a call has returned in a `Seen`. Until the
/// next command a key names one object, and an object has one key. A call fails only if the swap device failed in it.
pub trait Walk {
    // The registers, and the objects by their keys.
    ghost graph: { Self → KeyedGraph };

    // The count of swap errors.
    ghost faults: { Self → ℕ };

    /// How many registers there are.
    fn registers(&self) -> u32
        ensures { result ≡ length (graph self.now).registers };

    /// The value of a register below `registers`.
    fn value_of_register(&mut self, register: u32) -> Result<Seen, SwapFault>
        requires { register < length (graph self.old).registers }
        ensures value { IfOk result (λ seen. slice_get (graph self.old).registers register ≡ Some seen) }
        ensures shows { IfOk result (λ seen. Shows (graph self.old) seen) }
        ensures unchanged { graph self.new ≡ graph self.old }
        ensures cause { HasCause (faults self.old) (faults self.new) result };

    /// The form of the object with this key.
    fn form_of(&mut self, key: u64) -> Result<Form, SwapFault>
        requires { (graph self.old).has key ≡ true }
        ensures value { IfOk result (λ form. form ≡ (graph self.old).form key) }
        ensures unchanged { graph self.new ≡ graph self.old }
        ensures cause { HasCause (faults self.old) (faults self.new) result };

    /// A field of the object with this key, below its form's length.
    fn field_of(&mut self, key: u64, index: u32) -> Result<Seen, SwapFault>
        requires object { (graph self.old).has key ≡ true }
        requires in_range { index < ((graph self.old).form key).length }
        ensures value { IfOk result (λ seen. seen ≡ (graph self.old).field key index) }
        ensures shows { IfOk result (λ seen. Shows (graph self.old) seen) }
        ensures unchanged { graph self.new ≡ graph self.old }
        ensures cause { HasCause (faults self.old) (faults self.new) result };

    /// The cons with this key: what `form_of` and `field_of` return of it, by one call.
    fn cons_of(&mut self, key: u64) -> Result<SeenCons, SwapFault>
        requires { Shows (graph self.old) (a_cons key) }
        ensures value { IfOk result (λ cons. cons ≡ cons_at (graph self.old) key) }
        ensures car { IfOk result (λ cons. Shows (graph self.old) cons.car) }
        ensures cdr { IfOk result (λ cons. Shows (graph self.old) cons.cdr) }
        ensures unchanged { graph self.new ≡ graph self.old }
        ensures cause { HasCause (faults self.old) (faults self.new) result }
    {
        let form = self.form_of(key)?;
        let car = self.field_of(key, 0)?;
        let cdr = self.field_of(key, 1)?;
        Ok(SeenCons {
            area: form.area,
            charge: form.charge,
            car,
            cdr,
        })
    }
}
