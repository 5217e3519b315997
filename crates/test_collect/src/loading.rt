//! Loads a small world over a flat memory, and compares each word with the layout.
ghost use Rattle.std.specs.Prelude.{◌≡◌, length, replicate, IfOk};
ghost use Rattle.area_space.specs.View.{view};
ghost use Rattle.heap_load.specs.Views.{RepresentsWorld};
ghost use Rattle.lisp_graph.specs.declared.object.Body.TheVariants as B;
ghost use Rattle.mem_port.specs.Store.{IsFresh};
ghost use Rattle.heap_load.specs.Loading.{emptied};
ghost use Rattle.heap_commands.specs.cdr_lists.Words.{plain};
ghost use Rattle.test_collect.specs.SmallWorld.{IsSmall};
ghost use Rattle.store_word.specs.declared.word.Content.TheVariants.{Nil as NilWord};

use area_space::{Ground, RegionTable};
use heap_load::{LoadFault, load};
use lisp_graph::{AreaKind, AreaRule, Areas, Body, Fields, Name, Object, Objects, Value, World};
use mem_port::{Memory, PlainMemory};
use std::alloc::Global;
use std::marker::Brand;
use std::process::Abort;
use std::sync::ledger::{Blank, Ledger};
use std::test::Fail;
use store_word::{CdrCode, Content, Space, Steps, Word};

const SPACE: Space = Space {
    regions: 16,
    frames: 32,
    registers: 3,
    levels: 1,
    rate: 0,
    capacity: [0; 6],
};

// The words of the world below: three cells of a list, a block, a pair of charge 2 and one of 3.
const WORDS: [(CdrCode, Content); 11] = [
    (CdrCode::Next, Content::Struct(3)),
    (CdrCode::Next, Content::Fixnum(7)),
    (CdrCode::Nil, Content::Nil),
    (CdrCode::Next, Content::Header { code: 9, length: 3 }),
    (CdrCode::Next, Content::List(0)),
    (CdrCode::Next, Content::Fixnum(-1)),
    (CdrCode::Next, Content::List(7)),
    (CdrCode::Normal, Content::Struct(3)),
    (CdrCode::Second, Content::List(1)),
    (CdrCode::Normal, Content::Fixnum(5)),
    (CdrCode::Next, Content::List(0)),
];

// A cons of the only area.
fn cons(charge: u32, car: Value, cdr: Value) -> Object
    ensures { result ≡ record { area = 0; charge = charge; body = B.Cons car cdr } }
{
    Object {
        area: 0,
        charge,
        body: Body::Cons { car, cdr },
    }
}

// A group of three conses, and a block and two conses that refer forwards and backwards.
fn small_world(alloc: Global) -> Result<World, Fail>
    ensures { IfOk result IsSmall }
{
    let mut areas = Areas::new(alloc);
    areas.push(AreaRule {
        name: Name::read(b"work").ok_or("no name")?,
        kind: AreaKind::Dynamic,
        quota: 8000,
    })?;
    let fields = Fields::from_slice(alloc, &[Value::Ref(0), Value::Fix(-1), Value::Ref(4)])?;
    let mut objects = Objects::new(alloc);
    objects.push(cons(3, Value::Ref(3), Value::Ref(1)))?;
    objects.push(cons(3, Value::Fix(7), Value::Ref(2)))?;
    objects.push(cons(3, Value::Nil, Value::Nil))?;
    objects.push(Object {
        area: 0,
        charge: 4,
        body: Body::Block { code: 9, fields },
    })?;
    objects.push(cons(2, Value::Ref(3), Value::Ref(1)))?;
    objects.push(cons(3, Value::Fix(5), Value::Ref(0)))?;
    let roots = Fields::from_slice(alloc, &[Value::Ref(4), Value::Ref(5), Value::Fix(12)])?;
    Ok(World {
        space: SPACE,
        areas,
        objects,
        roots,
    })
}

// A ground without objects.
fn new_ground<M: Memory + Drop>(alloc: Global, mem: M, world: &World) -> Result<Ground<M>, Fail>
    requires fresh { IsFresh (M.seen mem) 16 1 }
    requires at_most { IsSmall world.now }
    ensures { IfOk result (λ made. RepresentsWorld (view made) (replicate 3 (plain NilWord)) (emptied world.now)) }
{
    let Ok(table) = RegionTable::new(alloc, &world.space, &world.areas) else {
        return Err("no memory".into());
    };
    let _regions = table.regions();
    Ok(Ground { mem, table })
}

// What a word contains, if there is one.
fn word_at<M: Memory, L: Ledger>(
    mem: &mut M,
    at: u32,
    steps: &mut Steps<L>,
) -> Option<(CdrCode, Content)>
    ensures { length (M.seen mem.new).words ≡ length (M.seen mem.old).words }
{
    if at / 256 >= mem.pages() {
        return None;
    }
    let word = mem.read(at, steps).ok()?;
    Some((word.cdr_code(), word.content()))
}

// Loads the world, and checks each word and each register.
fn run<M: Memory + Drop, L: Ledger>(
    rt: &impl Abort,
    alloc: Global,
    mem: M,
    blank: Blank,
) -> Result<(), Fail>
    requires fresh { IsFresh (M.seen mem) 16 1 }
    requires name { blank.name ≡ L.name }
    requires parts { blank.parts ≡ L.parts }
    requires at_least { blank.parts ≡ 1 }
{
    let mut steps = Steps::<L>::new(blank);
    let world = small_world(alloc)?;
    let mut ground = new_ground(alloc, mem, &world)?;
    let mut registers = [Word::nil(), Word::nil(), Word::nil()];
    let loaded = load(alloc, &mut ground, &mut registers, &world, &mut steps);
    assert!(rt; loaded.is_ok());
    for i in 0..WORDS.len() {
        assert!(rt; word_at(&mut ground.mem, i as u32, &mut steps) == Some(WORDS[i]));
    }
    assert!(rt; word_at(&mut ground.mem, 11, &mut steps) == Some((CdrCode::Next, Content::Null)));
    assert!(rt; registers[0].content() == Content::List(7));
    assert!(rt; registers[1].content() == Content::List(9));
    assert!(rt; registers[2].content() == Content::Fixnum(12));
    Ok(())
}

#[test]
fn a_world_is_loaded(rt: HostRuntime) -> Result<(), Fail> {
    let mem = PlainMemory::new(rt.alloc(), &SPACE)?;
    run::<PlainMemory, Brand>(&rt, rt.alloc(), mem, Blank::new(1))
}

#[test]
fn faults_have_messages(rt: HostRuntime) -> Result<(), Fail> {
    let fault = LoadFault::NoMemory;
    assert!(&rt; format!(in rt.alloc(); "{fault}")?.as_str() == "no memory");
    Ok(())
}
