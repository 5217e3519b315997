//! Groups of consecutive conses that form a list.
ghost use Rattle.std.specs.Prelude.{◌≡◌, ◌+◌, ◌<◌, ◌≤◌, ℕ, true, false, length};
ghost use Rattle.lisp_graph.specs.Graph.{is_ref, object_at};
ghost use Rattle.lisp_graph.specs.Groups.{is_cell, is_nil};
ghost use Rattle.heap_load.specs.Loading.{AreLinked, group_from};

use lisp_graph::{BodyRef, Objects, Value};

// The most conses of a group.
const GROUP_LIMIT: usize = 1024;

/// The group that begins with the object of a number: how many conses it has, or 0 if no group begins there.
#[derive(Clone, Copy)]
pub(crate) struct Group {
    pub number: usize,
    pub count: usize,
}

// Whether the object of a number is a cons of this area and of charge 3 with nil as its cdr.
fn is_last(objects: &Objects, number: usize, area: u8) -> bool
    requires { number < length objects.now }
    ensures { result ≡ is_cell area is_nil (object_at objects.now number) }
{
    if objects.area_of(number) != area || objects.charge_of(number) != 3 {
        return false;
    }
    match objects.body(number) {
        BodyRef::Cons {
            car: _,
            cdr: Value::Nil,
        } => true,
        _ => false,
    }
}

// Whether the object of a number is a cons of this area and of charge 3 whose cdr refers to another number.
fn is_link(objects: &Objects, number: usize, area: u8, next: u64) -> bool
    requires { number < length objects.now }
    ensures { result ≡ is_cell area (is_ref next) (object_at objects.now number) }
{
    if objects.area_of(number) != area || objects.charge_of(number) != 3 {
        return false;
    }
    match objects.body(number) {
        BodyRef::Cons {
            car: _,
            cdr: Value::Ref(name),
        } => name == next,
        _ => false,
    }
}

// The first number from `at` on whose object isn't a cons of this area and of charge 3 with a cdr that refers to the
// next object; or `end`, if there is none below that.
fn skip_links(objects: &Objects, area: u8, at: usize, end: usize) -> usize
    requires at_most { end ≤ length objects.now }
    ensures order { result < end → at ≤ result }
    ensures in_range { result ≤ end }
    ensures before { (i : ℕ) → at ≤ i → i < result → is_cell area (is_ref (i + 1)) (object_at objects.now i) ≡ true }
    ensures found { result < end → is_cell area (is_ref (result + 1)) (object_at objects.now result) ≡ false }
{
    for i in at..end {
        if !is_link(objects, i, area, i as u64 + 1) {
            return i;
        }
    }
    end
}

/// How many conses form a group from this number on: of one area, of charge 3, the cdr of each but the
/// last referring to the next, and that of the last nil; at most 1,024, or 0 if there is no group.
///
/// The objects up to `linked` are known to refer each to the next, and aren't looked at again. So the searches for
/// the groups of all objects, one after another, look at each object a constant number of times.
pub(crate) fn group_from(objects: &Objects, number: usize, linked: &mut usize) -> usize
    requires in_range { number < length objects.now }
    requires known { AreLinked objects.now number linked.old }
    ensures value { result ≡ group_from objects.now number }
    ensures stays_known { AreLinked objects.now number linked.new }
{
    if objects.charge_of(number) != 3 {
        return 0;
    }
    let area = objects.area_of(number);
    let end = number + (objects.len() as usize - number).min(GROUP_LIMIT);
    let from = number.max(*linked);
    let at = skip_links(objects, area, from, end);
    *linked = at;
    if at == end {
        return 0;
    }
    if is_last(objects, at, area) {
        at - number + 1
    } else {
        0
    }
}
