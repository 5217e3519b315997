//! Runs over devices in memory: texts, and what they are compiled to.
mod modes;

use super::same::same;
use file_modes::{FileMode, Status, run_mode};
use outer_ports::{SinkBytes, SourceBytes};
use std::alloc::Global;
use std::process::Abort;
use std::test::Fail;

/// The header of a text.
const HEADER: &str = "sexpr-world 1\nspace 16 32 8 1 2\narea work dynamic 3\ncapacity 0\n";

/// The header of a dump.
const DUMP: &str = "lispm-world 2\nspace 16 32 8 1 2\narea work dynamic 3\ncapacity 0\n";

/// Compiles a text, and compares the status and what was written. The calls of the source and of the sink with these numbers fail;
/// 0 is none.
fn run(
    rt: &impl Abort,
    alloc: Global,
    text: &str,
    fails: (u64, u64),
    status: Status,
    output: &str,
) -> Result<(), Fail> {
    let bytes = Vec::from_slice(alloc, text.as_bytes())?;
    let mut source = SourceBytes::new(bytes, 7, vec![in alloc; fails.0]?);
    let mut sink = SinkBytes::new(alloc, 1000, 3, vec![in alloc; fails.1]?)?;
    let answer = run_mode(alloc, FileMode::Compile, &mut source, &mut sink);
    assert!(rt; answer == status);
    same(rt, sink.bytes(), output.as_bytes(), text);
    Ok(())
}

/// What follows the header of a text, and the objects and roots of the dump of its world, which may exceed the quotas.
const DUMPS: [(&str, &str); 4] = [
    ("end-sexpr", ""),
    ("root 0 nil\nend-sexpr\n\n  \n", ""),
    (
        "root 0 #0=work(1 . #0#)\nend-sexpr\n",
        "cons work 1 #0\nroot 0 #0\n",
    ),
    (
        "root 0 work{9 work[1 . #0=work[2 3]] nil} root 1 #0# end-sexpr",
        "block work 9 #3 nil\nrun work 2 3\ncons work 1 #1\nroot 0 #0\nroot 1 #1\n",
    ),
];

#[test]
fn dumps(rt: HostRuntime) -> Result<(), Fail> {
    let alloc = rt.alloc();
    for (pieces, lines) in DUMPS {
        let text = format!(in alloc; "{HEADER}{pieces}")?;
        let output = format!(in alloc; "{DUMP}{lines}end-world\n")?;
        run(&rt, alloc, &text, (0, 0), Status::Done, &output)?;
    }
    Ok(())
}

/// The calls of the source and of the sink that fail, the status and what was written.
const FAULTS: [((u64, u64), Status, &str); 3] = [
    ((3, 0), Status::ReadFailed, "error: read failed\n"),
    ((0, 1), Status::WriteFailed, ""),
    ((0, 3), Status::WriteFailed, "lispm-"),
];

#[test]
fn faults(rt: HostRuntime) -> Result<(), Fail> {
    let text = format!(in rt.alloc(); "{HEADER}end-sexpr")?;
    for (fails, status, output) in FAULTS {
        run(&rt, rt.alloc(), &text, fails, status, output)?;
    }
    Ok(())
}

/// What follows the header of a text that is refused, and the error line.
const REFUSALS: [(&str, &str); 11] = [
    ("", "error line 5: no end\n"),
    ("root 0 work(1", "error line 6: no end\n"),
    ("root 0 $\nend-sexpr\n", "error line 5: bad token\n"),
    ("root 0 work()\nend-sexpr\n", "error line 5: bad form\n"),
    ("root 8 1\nend-sexpr\n", "error line 5: no register\n"),
    (
        "root 0 1\nroot\n0 1\nend-sexpr\n",
        "error line 7: register twice\n",
    ),
    ("root 0 play(1)\nend-sexpr\n", "error line 5: no area\n"),
    (
        "root 0 work{65536}\nend-sexpr\n",
        "error line 5: bad number\n",
    ),
    (
        "root 0 #1=work(#1=work(1))\nend-sexpr\n",
        "error line 5: label twice\n",
    ),
    (
        "root 0 work(1 #4#)\nend-sexpr\n",
        "error line 5: no label 4\n",
    ),
    ("end-sexpr\n\nroot", "error line 7: text after end\n"),
];

#[test]
fn refusals(rt: HostRuntime) -> Result<(), Fail> {
    let alloc = rt.alloc();
    for (pieces, output) in REFUSALS {
        let text = format!(in alloc; "{HEADER}{pieces}")?;
        run(&rt, alloc, &text, (0, 0), Status::Refused, output)?;
    }
    Ok(())
}

/// A text whose header is refused, the status and the error line.
const HEADERS: [(&str, Status, &str); 3] = [
    ("", Status::Refused, "error line 1: not a world\n"),
    (
        "sexpr-world 1\nspace 5\n",
        Status::Refused,
        "error line 2: wrong count\n",
    ),
    (
        "sexpr-world 1\nspace 5 32 8 1 2\narea work dynamic 1025\ncapacity 0\nend-sexpr\n",
        Status::NoSpace,
        "error line 3: space too small\n",
    ),
];

#[test]
fn headers(rt: HostRuntime) -> Result<(), Fail> {
    for (text, status, output) in HEADERS {
        run(&rt, rt.alloc(), text, (0, 0), status, output)?;
    }
    Ok(())
}
