//! Worlds as text, and the reports on them.
ghost use Rattle.std.specs.Prelude.{◌<◌, ◌^◌, IfOk, length};
ghost use Rattle.world_text.specs.Limits.{IsAccepted};

use super::files::world_of;
use super::same::same;
use lisp_graph::{Areas, GraphWalk, Text, World};
use std::alloc::Global;
use std::process::Abort;
use std::test::Fail;
use why_held::{
    Held, Hop, Hops, Part, Why, census, census_text, check_why, reached, why, why_text,
};

const LISTS: &str =
    "lispm-world 2\nspace 16 32 8 1 2\narea work dynamic 100\ncapacity 0\ncons work 1 #1\ncons work 2 #2\ncons work 3 nil\ncons work 4 nil\nroot 0 #0\nroot 1 #1\nend-world";

const BLOCK: &str =
    "lispm-world 2\nspace 16 32 8 1 2\narea work dynamic 100\ncapacity 0\nrun work 1 2 3\nblock work 9 #0 nil\nroot 0 #3\nroot 1 #1\nend-world";

/// The world of a file with few objects.
fn world(alloc: Global, file: &str) -> Result<World, Fail>
    ensures accepted { IfOk result IsAccepted }
    ensures at_most { IfOk result (λ w. length w.objects < 2 ^ 32) }
{
    let world = world_of(alloc, file)?;
    if world.objects.len() >= 100 {
        return Err(Fail::from("too many"));
    }
    Ok(world)
}

/// A file, the number of an object, and why it is held.
const ANSWERS: [(&str, u64, &str); 4] = [
    (
        LISTS,
        2,
        "held 1\nroot 1 #1\ncdr #2\nlevel 0 0\nlevel 1 0\nlevel 2 1\nend-why\n",
    ),
    (LISTS, 3, "free\nlevel 0 0\nlevel 1 0\nlevel 2 1\nend-why\n"),
    (
        BLOCK,
        0,
        "held 1\nroot 0 #3\nfield 0 #0\nlevel 0 1\nlevel 1 0\nlevel 2 1\nlevel 3 0\nend-why\n",
    ),
    (
        BLOCK,
        2,
        "held 1\nroot 1 #1\ncdr #2\nlevel 0 1\nlevel 1 0\nlevel 2 1\nlevel 3 0\nend-why\n",
    ),
];

/// Compares why an object is held.
fn compare_answer(
    rt: &impl Abort,
    alloc: Global,
    world: &World,
    object: u64,
    want: &str,
) -> Result<(), Fail>
    requires accepted { IsAccepted world.now }
    requires at_most { length world.now.objects < 2 ^ 32 }
{
    assert!(rt; object < world.objects.len());
    let answer = why(alloc, world, object)?;
    assert!(rt; check_why(world, object, &answer));
    same(
        rt,
        why_text(alloc, &answer)?.as_slice(),
        want.as_bytes(),
        want,
    );
    Ok(())
}

#[test]
fn why_objects_are_held(rt: HostRuntime) -> Result<(), Fail> {
    for (text, object, want) in ANSWERS {
        compare_answer(&rt, rt.alloc(), &world(rt.alloc(), text)?, object, want)?;
    }
    Ok(())
}

/// The text of a world's census.
fn told(alloc: Global, world: World) -> Result<Text, Fail>
    requires accepted { IsAccepted world }
    requires at_most { length world.objects < 2 ^ 32 }
{
    let rows = census(alloc, &world)?;
    let World {
        space,
        areas,
        objects,
        roots,
    } = world;
    let mut walk = GraphWalk::new(World {
        space,
        areas: Areas::new(alloc),
        objects,
        roots,
    });
    let some = reached(alloc, &mut walk, &areas)?;
    Ok(census_text(alloc, &areas, &rows, &some)?)
}

/// A file, and its census.
const CENSUSES: [(&str, &str); 2] = [
    (LISTS, "work cons 3 6 1 2\nend-census\n"),
    (
        BLOCK,
        "work cons 3 9 0 0\nwork block 9 1 3 0 0\nend-census\n",
    ),
];

#[test]
fn objects_are_counted(rt: HostRuntime) -> Result<(), Fail> {
    let alloc = rt.alloc();
    for (text, want) in CENSUSES {
        let told = told(alloc, world(alloc, text)?)?;
        same(&rt, told.as_slice(), want.as_bytes(), want);
    }
    Ok(())
}

/// A chain to the object with the number 2 of the lists.
const RIGHT: &[Hop] = &[
    Hop {
        part: Part::Root(1),
        to: 1,
    },
    Hop {
        part: Part::Cdr,
        to: 2,
    },
];

/// A longer chain, one by another part, one to another object, and none.
const WRONG: [&[Hop]; 4] = [
    &[
        Hop {
            part: Part::Root(0),
            to: 0,
        },
        Hop {
            part: Part::Cdr,
            to: 1,
        },
        Hop {
            part: Part::Cdr,
            to: 2,
        },
    ],
    &[
        Hop {
            part: Part::Root(1),
            to: 1,
        },
        Hop {
            part: Part::Car,
            to: 2,
        },
    ],
    &[
        Hop {
            part: Part::Root(1),
            to: 1,
        },
        Hop {
            part: Part::Cdr,
            to: 3,
        },
    ],
    &[],
];

/// A chain of these references.
fn chain(alloc: Global, hops: &[Hop]) -> Result<Held, Fail> {
    let mut chain = Hops::new(alloc);
    for hop in hops {
        chain.push(*hop)?;
    }
    Ok(Held::Path(chain))
}

/// Whether `check_why` accepts this answer for the object with the number 2.
fn is_answer(alloc: Global, world: &World, held: Held) -> Result<bool, Fail>
    requires accepted { IsAccepted world.now }
    requires at_most { length world.now.objects < 2 ^ 32 }
    requires object { 2 < length world.now.objects }
{
    let Why { held: _, depths } = why(alloc, world, 2)?;
    Ok(check_why(world, 2, &Why { held, depths }))
}

/// Compares the verdicts on right and wrong answers.
fn compare_answers(rt: &impl Abort, alloc: Global, world: &World) -> Result<(), Fail>
    requires accepted { IsAccepted world.now }
    requires at_most { length world.now.objects < 2 ^ 32 }
{
    assert!(rt; 2 < world.objects.len());
    assert!(rt; is_answer(alloc, world, chain(alloc, RIGHT)?)?);
    assert!(rt; !is_answer(alloc, world, Held::Free)?);
    for wrong in WRONG {
        assert!(rt; !is_answer(alloc, world, chain(alloc, wrong)?)?);
    }
    Ok(())
}

#[test]
fn wrong_answers_are_told(rt: HostRuntime) -> Result<(), Fail> {
    compare_answers(&rt, rt.alloc(), &world(rt.alloc(), LISTS)?)
}
