//! The modes that answer about a file: runs over devices in memory, and their answers.
use file_modes::{FileMode, Status, run_mode};
use outer_ports::{SinkBytes, SourceBytes};
use std::alloc::Global;
use std::process::Abort;
use std::test::Fail;

/// The lines before the objects of a world.
const HEADER: &str = "lispm-world 2\nspace 16 32 8 1 2\narea work dynamic 10\ncapacity 0\n";

/// Runs a mode over a file, and compares the status and what was written. The calls of the source and of the sink with these
/// numbers fail; 0 means none.
fn run(
    rt: &impl Abort,
    alloc: Global,
    mode: FileMode,
    file: &str,
    fails: (u64, u64),
    status: Status,
    output: &str,
) -> Result<(), Fail> {
    let bytes = Vec::from_slice(alloc, file.as_bytes())?;
    let mut source = SourceBytes::new(bytes, 7, vec![in alloc; fails.0]?);
    let mut sink = SinkBytes::new(alloc, 1000, 3, vec![in alloc; fails.1]?)?;
    let answer = run_mode(alloc, mode, &mut source, &mut sink);
    assert_eq!(rt; answer, status, "{file}");
    assert_eq!(rt; sink.bytes(), output.as_bytes(), "{file}");
    Ok(())
}

/// What each mode requests of a world, and the text that is written.
#[test]
fn answers(rt: HostRuntime) -> Result<(), Fail> {
    let alloc = rt.alloc();
    let lines =
        "cons work 1 #1\ncons work 2 #2\ncons work 3 nil\ncons work 4 nil\nroot 0 #0\nroot 1 #1\nend-world\n";
    let file = format!(in alloc; "{HEADER}{lines}")?;
    for (mode, output) in [
        (
            FileMode::Why { object: 2 },
            "held 1\nroot 1 #1\ncdr #2\nlevel 0 0\nlevel 1 0\nlevel 2 1\nend-why\n",
        ),
        (
            FileMode::Why { object: 3 },
            "free\nlevel 0 0\nlevel 1 0\nlevel 2 1\nend-why\n",
        ),
        (FileMode::Census, "work cons 3 6 1 2\nend-census\n"),
        (
            FileMode::Print,
            "sexpr-world 1\nspace 16 32 8 1 2\narea work dynamic 10\ncapacity 0\nroot 0 work(1 . #0=work(2 3))\nroot 1 #0#\nend-sexpr\n",
        ),
    ] {
        run(&rt, alloc, mode, &file, (0, 0), Status::Done, output)?;
        run(
            &rt,
            alloc,
            mode,
            &file,
            (3, 0),
            Status::ReadFailed,
            "error: read failed\n",
        )?;
        let front = output.get(..3).ok_or("short")?;
        run(&rt, alloc, mode, &file, (0, 2), Status::WriteFailed, front)?;
        run(&rt, alloc, mode, &file, (0, 1), Status::WriteFailed, "")?;
    }
    run(
        &rt,
        alloc,
        FileMode::Why { object: 4 },
        &file,
        (0, 0),
        Status::NoObject,
        "error: no object 4\n",
    )
}

/// Files that are refused, by their lines after the header.
#[test]
fn refusals(rt: HostRuntime) -> Result<(), Fail> {
    let alloc = rt.alloc();
    for (lines, status, output) in [
        ("", Status::Refused, "error line 5: no end\n"),
        (
            "end-world\n\n",
            Status::Refused,
            "error line 6: text after end\n",
        ),
        (
            "trace\n",
            Status::Refused,
            "error line 5: unexpected line\n",
        ),
        (
            "cons  work 1 2\n",
            Status::Refused,
            "error line 5: bad line\n",
        ),
        (
            "cons play 1 2\n",
            Status::Refused,
            "error line 5: no area\n",
        ),
        (
            "root 0 #0\nend-world\n",
            Status::Refused,
            "error line 5: no object 0\n",
        ),
        (
            "cons work #7 nil\nend-world\n",
            Status::Refused,
            "error line 6: no object 7\n",
        ),
        (
            "run work 1 2 3\ncons work 1 nil\nend-world\n",
            Status::NoSpace,
            "error line 6: exhausted work 9 2 10\n",
        ),
    ] {
        let file = format!(in alloc; "{HEADER}{lines}")?;
        for mode in [
            FileMode::Why { object: 0 },
            FileMode::Census,
            FileMode::Print,
        ] {
            run(&rt, alloc, mode, &file, (0, 0), status, output)?;
        }
    }
    for (file, status, output) in [
        ("", Status::Refused, "error line 1: not a world\n"),
        (
            "lispm-world 3\n",
            Status::Refused,
            "error line 1: not a world\n",
        ),
        (
            "lispm-world 1\nspace 5 32 8 1 2\narea work dynamic 1025\nend-world\n",
            Status::NoSpace,
            "error line 3: space too small\n",
        ),
    ] {
        run(&rt, alloc, FileMode::Census, file, (0, 0), status, output)?;
    }
    Ok(())
}
