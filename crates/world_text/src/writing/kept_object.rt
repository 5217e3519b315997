//! An object as a dump keeps it until its parts are visited. It takes 16 bytes, since the keys in it are kept in 32 bits.
ghost use Rattle.std.specs.Prelude.{◌≡◌, Some, None, IfOk};
ghost use Rattle.world_text.specs.writing.Kept.{kept_in, seen_of};

use lisp_graph::{Seen, SeenCons};
use store_word::NoMemory;

/// Which value is kept.
#[derive(Clone, Copy)]
pub enum Kind {
    Fix,
    Nil,
    Cons,
    Block,
}

/// A value whose key is below 2^32: its number or its key, as 32 bits.
#[derive(Clone, Copy)]
pub struct KeptValue {
    bits: u32,
    kind: Kind,
}

/// A cons as the walk showed it, or a block, of which nothing is kept.
#[derive(Clone, Copy)]
pub struct KeptObject {
    charge: u32,
    car: u32,
    cdr: u32,
    area: u8,
    is_cons: bool,
    car_kind: Kind,
    cdr_kind: Kind,
}

/// The key in 32 bits. A greater one is refused as if memory had run out: no table has room for its number.
fn kept_key(key: u64) -> Result<u32, NoMemory>
    ensures { IfOk result (λ kept. kept ≡ key) }
{
    if key > u64::from(u32::MAX) {
        return Err(NoMemory);
    }
    Ok(key as u32)
}

fn kept_value(seen: Seen) -> Result<KeptValue, NoMemory>
    ensures { IfOk result (λ kept. seen_of kept.kind kept.bits ≡ seen) }
{
    match seen {
        Seen::Fix(number) => Ok(KeptValue {
            bits: number.cast_unsigned(),
            kind: Kind::Fix,
        }),
        Seen::Nil => Ok(KeptValue {
            bits: 0,
            kind: Kind::Nil,
        }),
        Seen::Cons(key) => {
            let bits = kept_key(key)?;
            Ok(KeptValue {
                bits,
                kind: Kind::Cons,
            })
        }
        Seen::Block(key) => {
            let bits = kept_key(key)?;
            Ok(KeptValue {
                bits,
                kind: Kind::Block,
            })
        }
    }
}

#[inline(always)]
fn seen_value(kind: Kind, bits: u32) -> Seen
    ensures { result ≡ seen_of kind bits }
{
    match kind {
        Kind::Fix => Seen::Fix(bits.cast_signed()),
        Kind::Nil => Seen::Nil,
        Kind::Cons => Seen::Cons(u64::from(bits)),
        Kind::Block => Seen::Block(u64::from(bits)),
    }
}

impl KeptObject {
    /// Keeps a cons. It is refused if one of its keys is 2^32 or more.
    pub fn cons(cons: SeenCons) -> Result<KeptObject, NoMemory>
        ensures { IfOk result (λ kept. kept_in kept ≡ Some cons) }
    {
        let car = kept_value(cons.car)?;
        let cdr = kept_value(cons.cdr)?;
        Ok(KeptObject {
            charge: cons.charge,
            car: car.bits,
            cdr: cdr.bits,
            area: cons.area,
            is_cons: true,
            car_kind: car.kind,
            cdr_kind: cdr.kind,
        })
    }

    /// A block.
    pub fn block() -> KeptObject
        ensures { kept_in result ≡ None }
    {
        KeptObject {
            charge: 0,
            car: 0,
            cdr: 0,
            area: 0,
            is_cons: false,
            car_kind: Kind::Nil,
            cdr_kind: Kind::Nil,
        }
    }

    /// The cons that is kept; None for a block.
    #[inline(always)]
    pub fn kept(&self) -> Option<SeenCons>
        ensures { result ≡ kept_in self.now }
    {
        if !self.is_cons {
            return None;
        }
        Some(SeenCons {
            area: self.area,
            charge: self.charge,
            car: seen_value(self.car_kind, self.car),
            cdr: seen_value(self.cdr_kind, self.cdr),
        })
    }
}
