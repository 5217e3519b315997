//! For each object up to a depth, the lowest numbered object that is one less deep and refers to it.
ghost use Rattle.std.specs.Prelude.{◌≡◌, ◌+◌, ◌<◌, ◌∷◌, [], length, IfOk};
ghost use Rattle.std.specs.List.{All};
ghost use Rattle.lisp_graph.specs.Graph.{IsObject, PartsReferBelow, RefersBelow};
ghost use Rattle.lisp_graph.specs.Objects.{body_copied};
ghost use Rattle.why_held.specs.Chains.{depth_at};
ghost use Rattle.why_held.specs.Choice.{is_one_less};
ghost use Rattle.why_held.specs.Nearest.{AreNearest, Offered, is_less_deep, nearest_at};
ghost use Rattle.why_held.specs.Search.{parts_of};

use crate::chain::Depths;
use crate::optional_numbers::OptionalNumbers;
use crate::search::depth_at;
use lisp_graph::{BodyRef, NoMemory, Objects, Value};
use std::alloc::Global;

/// Whether the first depth is one less than the second.
fn is_one_less(less: Option<u32>, more: Option<u32>) -> bool
    ensures { result ≡ is_one_less less more }
{
    match (less, more) {
        (Some(less), Some(more)) => u64::from(less) + 1 == u64::from(more),
        _ => false,
    }
}

/// What was found for an object so far.
pub(crate) fn nearest_at(nearest: &OptionalNumbers, object: u64) -> Option<u32>
    requires { object < length nearest.now }
    ensures { result ≡ nearest_at nearest.now object }
{
    nearest.get(object as usize)
}

/// Records the object `from` for the object to which a value in it refers, if that is one deeper and none was recorded for it.
fn offer(nearest: &mut OptionalNumbers, depths: &Depths, from: u64, value: Value)
    requires size { length depths.now ≡ length nearest.old }
    requires from { from < length nearest.old }
    requires refers { RefersBelow (length nearest.old) value }
    ensures { Offered depths.now from (value ∷ []) nearest.old nearest.new }
{
    if let Value::Ref(to) = value {
        if is_one_less(depth_at(depths, from), depth_at(depths, to)) {
            if let None = nearest.get(to as usize) {
                nearest.set(to as usize, from as u32);
            }
        }
    }
}

/// Does this for each of these values.
fn offer_all(nearest: &mut OptionalNumbers, depths: &Depths, from: u64, values: &[Value])
    requires size { length depths.now ≡ length nearest.old }
    requires from { from < length nearest.old }
    requires refers { All (RefersBelow (length nearest.old)) values.now }
    ensures { Offered depths.now from values.now nearest.old nearest.new }
{
    for value in values {
        offer(nearest, depths, from, *value);
    }
}

/// Does this for each part of the object `from`.
fn offer_parts(nearest: &mut OptionalNumbers, depths: &Depths, from: u64, body: BodyRef<'_>)
    requires size { length depths.now ≡ length nearest.old }
    requires from { from < length nearest.old }
    requires refers { PartsReferBelow (length nearest.old) (body_copied body) }
    ensures { Offered depths.now from (parts_of (body_copied body.entry)) nearest.old nearest.new }
{
    match body {
        BodyRef::Cons { car, cdr } => {
            offer(nearest, depths, from, car);
            offer(nearest, depths, from, cdr);
        }
        BodyRef::Block { fields, .. } => offer_all(nearest, depths, from, fields),
    }
}

/// Whether a depth is less than `most`.
fn is_less_deep(depth: Option<u32>, most: u32) -> bool
    ensures { result ≡ is_less_deep depth most }
{
    match depth {
        Some(depth) => depth < most,
        None => false,
    }
}

/// Does this for each part of the object `from`, if it is less than `most` deep.
fn offer_object(
    nearest: &mut OptionalNumbers,
    objects: &Objects,
    depths: &Depths,
    most: u32,
    from: usize,
)
    requires size { length depths.now ≡ length objects.now }
    requires sound { All (IsObject (length objects.now)) objects.now }
    requires from { from < length objects.now }
    requires before { AreNearest objects.now depths.now most from nearest.old }
    ensures { AreNearest objects.now depths.now most (from + 1) nearest.new }
{
    if is_less_deep(depth_at(depths, from as u64), most) {
        offer_parts(nearest, depths, from as u64, objects.body(from));
    }
}

/// For each object that is at most so deep, the lowest numbered object that is one less deep and refers to it. Each reference in
/// an object that is less deep is followed once.
pub(crate) fn nearest_of(
    alloc: Global,
    objects: &Objects,
    depths: &Depths,
    most: u32,
) -> Result<OptionalNumbers, NoMemory>
    requires size { length depths.now ≡ length objects.now }
    requires sound { All (IsObject (length objects.now)) objects.now }
    ensures { IfOk result (λ nearest. AreNearest objects.now depths.now most (length objects.now) nearest) }
{
    let mut nearest = OptionalNumbers::none(alloc, depths.len())?;
    let mut from = 0;
    while from < objects.len() as usize {
        offer_object(&mut nearest, objects, depths, most, from);
        from += 1;
    }
    Ok(nearest)
}
