//! The top call over files and sinks in memory.
use crate::failures::{FAILED_PUTS, FAILED_REPLAYS, FAILURES, Failing, NOWHERE, TRACE};
use crate::worked::{Guest, Left, NOTHING, PLAIN, THREADED, THREADED_LEFT};
use crate::worked_code::{FILE_HEADER, OUTPUTS_IN_TURNS, SEGMENT, THREADED_PROGRAM};
use aprof_top::aprof;
use host_io::{MemoryFiles, MemorySink};
use std::alloc::{AllocError, Global};
use std::process::Abort;
use std::test::Fail;

// What a call left.
#[derive(Drop)]
struct Seen {
    status: u8,
    files: MemoryFiles,
    out: MemorySink,
    err: MemorySink,
}

fn image_of(alloc: Global, guest: &Guest) -> Result<Vec<u8>, AllocError> {
    let mut image = Vec::new(alloc);
    for part in [FILE_HEADER, SEGMENT, guest.code] {
        for word in part {
            image.extend_from_slice(&word.to_le_bytes())?;
        }
    }
    image.resize(512, 0)?;
    Ok(image)
}

// Calls the program on these words, over these files, with some loads, stores and puts made to fail.
fn call(
    alloc: Global,
    texts: &[&str],
    image: &[u8],
    schedule: &[u8],
    failing: Failing,
) -> Result<Seen, AllocError> {
    let mut words = Vec::new(alloc);
    for text in texts {
        words.push(String::from_str(alloc, text)?)?;
    }
    let mut files = MemoryFiles::new(alloc)?;
    files.add("img", image)?;
    files.add("s", b"s")?;
    files.add("in.txt", b"i")?;
    files.add("c", schedule)?;
    files.fail_at(failing.file)?;
    let mut out = MemorySink::new(alloc)?;
    out.fail_at(failing.out)?;
    let mut err = MemorySink::new(alloc)?;
    err.fail_at(failing.err)?;
    let status = aprof(alloc, words.as_slice(), &mut files, &mut out, &mut err);
    Ok(Seen {
        status,
        files,
        out,
        err,
    })
}

fn call_guest(alloc: Global, guest: &Guest, failing: Failing) -> Result<Seen, AllocError> {
    let image = image_of(alloc, guest)?;
    let mut texts = Vec::from_slice(alloc, &["aprof", "run"])?;
    texts.extend_from_slice(guest.options)?;
    texts.extend_from_slice(&["-o", "r", "img"])?;
    texts.extend_from_slice(guest.words)?;
    call(
        alloc,
        texts.as_slice(),
        image.as_slice(),
        guest.schedule.as_bytes(),
        failing,
    )
}

fn text_of(bytes: &[u8]) -> &str {
    str::from_utf8(bytes).unwrap_or("no text")
}

// The call of this name left just this.
fn assert_left(rt: &impl Abort, name: &str, seen: &Seen, left: &Left) {
    assert_eq!(rt; seen.status, left.status, "status: {name}");
    assert_eq!(rt; text_of(seen.out.bytes()), left.out, "out: {name}");
    assert_eq!(rt; text_of(seen.err.bytes()), left.err, "err: {name}");
    let report = seen.files.bytes("r").map(text_of);
    assert_eq!(rt; report, left.report, "report: {name}");
    let recording = seen.files.bytes("k").map(text_of);
    assert_eq!(rt; recording, left.recording, "recording: {name}");
}

#[test]
fn stamps_of_each_width_give_one_report(rt: HostRuntime) -> Result<(), Fail> {
    for bits in ["8", "16", "32"] {
        let image = image_of(rt.alloc(), &THREADED)?;
        let texts = &[
            "aprof", "run", "--stamps", bits, "--record", "k", "-o", "r", "img",
        ];
        let seen = call(rt.alloc(), texts, image.as_slice(), b"", NOWHERE)?;
        assert_left(&rt, bits, &seen, &THREADED_LEFT);
    }
    Ok(())
}

// The threaded program runs again, by just what its first run stored.
#[test]
fn a_run_under_its_own_recording_is_the_same(rt: HostRuntime) -> Result<(), Fail> {
    let first = call_guest(rt.alloc(), &THREADED, NOWHERE)?;
    let recording = first.files.bytes("k").unwrap_or(b"");
    let image = image_of(rt.alloc(), &THREADED)?;
    let texts = &[
        "aprof",
        "run",
        "--schedule",
        "c",
        "--record",
        "k",
        "-o",
        "r",
        "img",
    ];
    let second = call(rt.alloc(), texts, image.as_slice(), recording, NOWHERE)?;
    assert_left(&rt, "the first run", &first, &THREADED_LEFT);
    assert_left(&rt, "the second run", &second, &THREADED_LEFT);
    Ok(())
}

#[test]
fn command_lines_are_refused(rt: HostRuntime) -> Result<(), Fail> {
    let refused: &[(&str, &[&str])] = &[
        ("no image", &["aprof", "run", "-o", "r"]),
        ("no report", &["aprof", "run", "img"]),
        (
            "stamps of no width",
            &["aprof", "run", "--stamps", "7", "-o", "r", "img"],
        ),
        (
            "turns of no step",
            &["aprof", "run", "--quantum", "0", "-o", "r", "img"],
        ),
        ("a zero byte", &["aprof", "run", "-o", "r\0", "img"]),
        ("no words", &[]),
    ];
    let left = Left {
        status: 1,
        err: "aprof: bad command line\n",
        ..NOTHING
    };
    let image = image_of(rt.alloc(), &PLAIN)?;
    for (name, words) in refused {
        let seen = call(rt.alloc(), words, image.as_slice(), b"", NOWHERE)?;
        assert_left(&rt, name, &seen, &left);
    }
    Ok(())
}

#[test]
fn each_failure_of_the_outside_is_told(rt: HostRuntime) -> Result<(), Fail> {
    let guest = Guest {
        code: THREADED_PROGRAM,
        options: &[
            "--stdin",
            "s",
            "--schedule",
            "c",
            "--record",
            "k",
            "--stats",
        ],
        words: &["in.txt"],
        schedule: "1 32\n2 14\n1 16\n",
    };
    for failure in FAILURES {
        let seen = call_guest(rt.alloc(), &guest, failure.failing)?;
        assert_left(&rt, failure.name, &seen, &failure.left);
    }
    Ok(())
}

#[test]
fn a_failed_put_ends_the_run(rt: HostRuntime) -> Result<(), Fail> {
    let guest = Guest {
        code: OUTPUTS_IN_TURNS,
        options: &["--record", "k"],
        ..PLAIN
    };
    for failure in FAILED_PUTS {
        let seen = call_guest(rt.alloc(), &guest, failure.failing)?;
        assert_left(&rt, failure.name, &seen, &failure.left);
    }
    Ok(())
}

#[test]
fn a_stored_trace_is_replayed(rt: HostRuntime) -> Result<(), Fail> {
    let texts = &[
        "aprof", "replay", "--stats", "--stamps", "8", "-o", "r", "img",
    ];
    for failure in FAILED_REPLAYS {
        let seen = call(rt.alloc(), texts, TRACE, b"", failure.failing)?;
        assert_left(&rt, failure.name, &seen, &failure.left);
    }
    let refused = Left {
        status: 13,
        err: "aprof: trace 4\n",
        ..NOTHING
    };
    let seen = call(rt.alloc(), texts, &TRACE[..48], b"", NOWHERE)?;
    assert_left(&rt, "a trace that is cut off", &seen, &refused);
    Ok(())
}

#[test]
fn the_demo_is_summed_up(rt: HostRuntime) -> Result<(), Fail> {
    let whole = Left {
        out: "demo 8\nend exit 0\nsteps 79\nroutines 10\nactivations 10\nsizes 31\ncosts 107\n",
        ..NOTHING
    };
    let half = Left {
        status: 4,
        out: "demo 8\nend exit 0\nsteps 79\nroutines ",
        err: "aprof: cannot write\n",
        ..NOTHING
    };
    let failing = Failing { out: 0, ..NOWHERE };
    for (number, failing, left) in [("8", NOWHERE, whole), ("8", failing, half)] {
        let seen = call(rt.alloc(), &["aprof", "demo", number], b"", b"", failing)?;
        assert_left(&rt, number, &seen, &left);
    }
    Ok(())
}

// Where an allocation is refused, by `rt try --test --fail-alloc N`, the status is that of out of memory.
#[test]
fn out_of_memory_has_its_own_status(rt: HostRuntime) {
    if let Ok(seen) = call_guest(rt.alloc(), &THREADED, NOWHERE) {
        assert!(rt; seen.status == 0 || seen.status == 10);
        if seen.status == 10 {
            assert!(rt; b"ok\n".starts_with(seen.out.bytes()));
            assert!(rt; b"aprof: out of memory\n".starts_with(seen.err.bytes()));
        }
    }
}
