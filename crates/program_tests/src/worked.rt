//! How a guest is run, and what it leaves. The worked rows run many more through the program.
use crate::worked_code::{EXIT, THREADED_PROGRAM};

/// What a call should leave: its status, what went to each sink, and the files that were stored.
#[derive(Clone, Copy)]
pub(crate) struct Left {
    pub(crate) status: u8,
    pub(crate) out: &'static str,
    pub(crate) err: &'static str,
    pub(crate) report: Option<&'static str>,
    pub(crate) recording: Option<&'static str>,
}

/// A guest, and how it is run.
#[derive(Clone, Copy)]
pub(crate) struct Guest {
    pub(crate) code: &'static [u32],
    /// What stands on the command line before `-o r img`, and after it.
    pub(crate) options: &'static [&'static str],
    pub(crate) words: &'static [&'static str],
    /// The text of the schedule, which only `--schedule c` reads.
    pub(crate) schedule: &'static str,
}

/// A call that succeeds, puts nothing and stores nothing.
pub(crate) const NOTHING: Left = Left {
    status: 0,
    out: "",
    err: "",
    report: None,
    recording: None,
};

/// The smallest guest, without options.
pub(crate) const PLAIN: Guest = Guest {
    code: EXIT,
    options: &[],
    words: &[],
    schedule: "",
};

/// A threaded program, which is run again by what it records.
pub(crate) const THREADED: Guest = Guest {
    options: &["--record", "k"],
    code: THREADED_PROGRAM,
    ..PLAIN
};

/// What it leaves.
pub(crate) const THREADED_LEFT: Left = Left {
    out: "ok\n",
    report: Some(
        "aprof 2\nend exit 0\nsteps 62\nopen 0\nroutine 00010054 -\n4 1 48 48 48 2 2 0 3\nroutine 000100bc -\n0 1 14 14 14 0 0 0 0\ndone 2\n",
    ),
    recording: Some("1 32\n2 14\n1 16\n"),
    ..NOTHING
};
