//! Texts, and the worlds that they mean or why they mean none.
use lisp_graph::{BodyRef, ObjectRef, Value, World};
use sexpr_text::{SexprFault, SexprReason, compile_sexpr};
use std::alloc::Global;
use std::test::Fail;
use world_text::Reason;

const HEADER: &str = "sexpr-world 1\nspace 16 32 8 1 2\narea work dynamic 100\ncapacity 0\n";

/// Whether an object is a cons of this charge with this car and this cdr.
fn is_cons(object: ObjectRef<'_>, charge: u32, car: Value, cdr: Value) -> bool {
    match object.body {
        BodyRef::Cons { car: a, cdr: d } => object.charge == charge && a == car && d == cdr,
        BodyRef::Block { .. } => false,
    }
}

/// Whether a world has the three conses of the text, and one root.
fn has_three_conses(world: &World) -> bool {
    let objects = &world.objects;
    if objects.len() != 3 {
        return false;
    }
    let [nil, _, list, _, _, _, _, _] = world.roots.as_slice() else {
        return false;
    };
    is_cons(objects.at(0), 2, Value::Fix(1), Value::Ref(1))
        && is_cons(objects.at(1), 2, Value::Ref(0), Value::Ref(2))
        && is_cons(objects.at(2), 3, Value::Fix(7), Value::Nil)
        && *list == Value::Ref(0)
        && *nil == Value::Nil
}

#[test]
fn conses_are_read(rt: HostRuntime) -> Result<(), Fail> {
    let text = format!(in rt.alloc(); "{HEADER}root 2 #0=work(1 #0# . work[7])\nend-sexpr\n")?;
    match compile_sexpr(rt.alloc(), text.as_bytes()) {
        Ok(world) => assert!(rt; has_three_conses(&world)),
        Err(_) => return Err(Fail::from("refused")),
    }
    Ok(())
}

/// What follows the header, and the line and the reason of the refusal.
const REFUSED: [(&str, u64, SexprReason); 18] = [
    ("", 5, SexprReason::NoEnd),
    ("root 0 wor", 5, SexprReason::BadToken),
    ("root 0 -0 end-sexpr", 5, SexprReason::BadToken),
    ("root\t0 1 end-sexpr", 5, SexprReason::BadToken),
    ("root 0 work() end-sexpr", 5, SexprReason::BadForm),
    ("root 0 work(1\n. 2 3) end-sexpr", 6, SexprReason::BadForm),
    ("root 0 work(1] end-sexpr", 5, SexprReason::BadForm),
    ("root 0 #0=5 end-sexpr", 5, SexprReason::BadForm),
    ("root 8 1 end-sexpr", 5, SexprReason::NoRegister),
    ("root -1 1 end-sexpr", 5, SexprReason::NoRegister),
    (
        "root 0 1\nroot 0 1 end-sexpr",
        6,
        SexprReason::RegisterTwice,
    ),
    ("root 0 play(1) end-sexpr", 5, SexprReason::NoArea),
    ("root 0 work{65536} end-sexpr", 5, SexprReason::BadNumber),
    (
        "root 0 #1=work(#1=work(1)) end-sexpr",
        5,
        SexprReason::LabelTwice,
    ),
    (
        "root 0 work(1 #4#) end-sexpr",
        5,
        SexprReason::NoLabel { label: 4 },
    ),
    (
        "root 0 work(#0# #0=work(1)) end-sexpr",
        5,
        SexprReason::NoLabel { label: 0 },
    ),
    ("root 0 work{9 1\n\n", 7, SexprReason::NoEnd),
    ("end-sexpr\n\n root 0 1", 7, SexprReason::TextAfterEnd),
];

/// Compares the line and the reason of a refusal.
fn is_refused(alloc: Global, text: &[u8], line: u64, reason: SexprReason) -> bool {
    match compile_sexpr(alloc, text) {
        Ok(_) => false,
        Err(fault) => fault == SexprFault::Bad { line, reason },
    }
}

#[test]
fn texts_are_refused(rt: HostRuntime) -> Result<(), Fail> {
    let alloc = rt.alloc();
    for (pieces, line, reason) in REFUSED {
        let text = format!(in alloc; "{HEADER}{pieces}")?;
        assert!(rt;
            is_refused(alloc, text.as_bytes(), line, reason),
            "{pieces}"
        );
    }
    let header = SexprReason::Header(Reason::NotAWorld);
    assert!(rt; is_refused(alloc, b"lispm-world 2\n", 1, header));
    Ok(())
}
