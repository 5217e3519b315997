//! Commands on stores of graphs, by traces, and what a walk shows.
mod traces;
mod words;

ghost use Rattle.std.specs.Prelude.{◌≡◌, ◌<◌, ◌≤◌, ◌-◌, ◌++◌, length, replicate, IfOk};
ghost use Rattle.lisp_graph.specs.Graph.{IsGraph};
ghost use Rattle.lisp_graph.specs.World.{opening};

use lisp_graph::{
    Areas, Body, Fields, Form, GraphStore, GraphWalk, Object, Objects, Seen, Text, Value, Walk,
    World,
};
use std::alloc::Global;
use std::process::Abort;
use std::test::Fail;
use store_word::{NoMemory, Space, SwapFault};
use words::{command, reply};

/// A world of these objects and 8 registers.
fn world(alloc: Global, objects: Objects, roots: &[Value]) -> Result<World, NoMemory>
    requires { length roots.now ≤ 8 }
    ensures made { IfOk result (λ world. world.objects ≡ objects) }
    ensures value { IfOk result (λ world. world.roots ≡ roots.now ++ replicate (8 - length roots.now) Value.Nil) }
    ensures registers { IfOk result (λ world. world.space.registers ≡ 8) }
{
    let mut all = Fields::from_slice(alloc, roots)?;
    all.pad(8, Value::Nil)?;
    let space = Space {
        regions: 5,
        frames: 32,
        registers: 8,
        levels: 1,
        rate: 0,
        capacity: [0; 6],
    };
    Ok(World {
        space,
        areas: Areas::new(alloc),
        objects,
        roots: all,
    })
}

/// A cons whose cdr is itself, and a block of two fields, which is its car.
fn small_world(alloc: Global) -> Result<World, NoMemory>
    ensures sound { IfOk result (λ world. IsGraph (opening world)) }
    ensures value { IfOk result (λ world. length world.roots ≡ 8) }
    ensures registers { IfOk result (λ world. world.space.registers ≡ 8) }
{
    let fields = Fields::from_slice(alloc, &[Value::Fix(7), Value::Ref(0)])?;
    let mut objects = Objects::new(alloc);
    objects.push(Object {
        area: 0,
        charge: 3,
        body: Body::Cons {
            car: Value::Ref(1),
            cdr: Value::Ref(0),
        },
    })?;
    objects.push(Object {
        area: 1,
        charge: 3,
        body: Body::Block { code: 9, fields },
    })?;
    world(alloc, objects, &[Value::Ref(0), Value::Ref(1)])
}

/// Whether a command is answered as a word requires, which has the command and the reply on either side of an equals sign.
fn is_answered(store: &mut GraphStore, word: &str) -> Result<bool, Fail>
    requires { length store.old.registers ≡ 8 }
    ensures { length store.new.registers ≡ 8 }
{
    let (ask, want) = word.split_once('=').ok_or("no reply")?;
    let ask = command(ask.as_bytes()).ok_or("no command")?;
    let answer = store.answer(&ask)?;
    Ok(Some(answer) == reply(want.as_bytes()))
}

/// Runs the commands of one line, and compares each reply.
fn run(rt: &impl Abort, store: &mut GraphStore, line: &str) -> Result<(), Fail>
    requires { length store.old.registers ≡ 8 }
{
    for word in line.split(' ') {
        assert!(rt; is_answered(store, word)?, "{line}");
    }
    Ok(())
}

/// Runs each line on a store without objects, whose registers are nil.
fn run_all(rt: &impl Abort, alloc: Global, lines: &str) -> Result<(), Fail> {
    for line in lines.lines() {
        let empty = world(alloc, Objects::new(alloc), &[])?;
        run(rt, &mut GraphStore::new(alloc, &empty)?, line)?;
    }
    Ok(())
}

#[test]
fn a_store_answers_in_sessions(rt: HostRuntime) -> Result<(), Fail> {
    run_all(&rt, rt.alloc(), traces::SESSIONS)
}

#[test]
fn a_store_answers_in_traces(rt: HostRuntime) -> Result<(), Fail> {
    run_all(&rt, rt.alloc(), traces::TRACES)
}

#[test]
fn a_store_begins_with_the_objects(rt: HostRuntime) -> Result<(), Fail> {
    let mut store = GraphStore::new(rt.alloc(), &small_world(rt.alloc())?)?;
    run(&rt, &mut store, "d20=c e20=t a20=b92 e21=t G210=#7 G211=c")
}

/// The form of the object in a register, and its last part.
fn form_and_last<W: Walk>(walk: &mut W, register: u32) -> Result<Option<(Form, Seen)>, SwapFault>
    requires { register < length (W.graph walk.old).registers }
    ensures { length (W.graph walk.new).registers ≡ length (W.graph walk.old).registers }
{
    let (Seen::Cons(key) | Seen::Block(key)) = walk.value_of_register(register)? else {
        return Ok(None);
    };
    let form = walk.form_of(key)?;
    if form.length == 0 {
        return Ok(None);
    }
    let last = walk.field_of(key, form.length as u32 - 1)?;
    Ok(Some((form, last)))
}

const CONS: Form = Form {
    area: 0,
    code: 0,
    length: 2,
    charge: 3,
};

const BLOCK: Form = Form {
    area: 1,
    code: 9,
    length: 2,
    charge: 3,
};

/// Whether a walk shows the small world.
fn tells_the_graph<W: Walk>(walk: &mut W) -> Result<bool, SwapFault>
    requires { length (W.graph walk.old).registers ≡ 8 }
{
    Ok(
        form_and_last(walk, 0)? == Some((CONS, Seen::Cons(0)))
            && form_and_last(walk, 1)? == Some((BLOCK, Seen::Cons(0)))
            && form_and_last(walk, 2)?.is_none(),
    )
}

#[test]
fn a_walk_tells_the_graph(rt: HostRuntime) -> Result<(), Fail> {
    assert!(rt; tells_the_graph(&mut GraphWalk::new(small_world(rt.alloc())?))?);
    Ok(())
}

/// Makes a text one byte longer, and cuts it again.
fn change(text: &mut Text) -> Result<(), NoMemory>
    requires { length text.old ≡ 1 }
{
    text.push(b'a')?;
    text.push_all(b"bc")?;
    text.pad(6, b'.')?;
    text.set(0, b'A');
    text.truncate(5);
    Ok(())
}

#[test]
fn a_list_grows_at_its_end(rt: HostRuntime) -> Result<(), Fail> {
    let mut text = Text::from_slice(rt.alloc(), b"x")?;
    change(&mut text)?;
    assert!(rt; text.as_slice() == b"Aabc.".as_slice() && text.len() == 5);
    assert!(rt; text.get(4) == Some(&b'.') && text.get(5).is_none());
    Ok(())
}
