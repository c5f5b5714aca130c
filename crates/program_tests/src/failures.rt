//! Failures of the outside, and what a call leaves then.
use crate::worked::{Left, NOTHING, THREADED_LEFT};

/// The load or store that fails, and the puts that do, each by its number among its like. No call has the number `NEVER`.
#[derive(Clone, Copy)]
pub(crate) struct Failing {
    pub(crate) file: u64,
    pub(crate) out: u64,
    pub(crate) err: u64,
}

/// What fails, and what is left then of a guest that puts `out` and `err` on the sinks of these names.
pub(crate) struct Failure {
    pub(crate) name: &'static str,
    pub(crate) failing: Failing,
    pub(crate) left: Left,
}

pub(crate) const NEVER: u64 = 99;

/// Nothing fails.
pub(crate) const NOWHERE: Failing = Failing {
    file: NEVER,
    out: NEVER,
    err: NEVER,
};

// What the threaded program leaves where nothing fails, with its statistics.
const WHOLE: Left = Left {
    err: "aprof: renumberings 0\n",
    ..THREADED_LEFT
};

/// The failures of one command that loads four files, puts the threaded program's output, stores its recording and then its
/// report, and puts its statistics. A put that fails gets half of its text through.
pub(crate) const FAILURES: &[Failure] = &[
    Failure {
        name: "nothing",
        failing: NOWHERE,
        left: WHOLE,
    },
    Failure {
        name: "the load of the image",
        failing: Failing { file: 0, ..NOWHERE },
        left: Left {
            status: 2,
            err: "aprof: cannot read img\n",
            ..NOTHING
        },
    },
    Failure {
        name: "the load of the input file",
        failing: Failing { file: 1, ..NOWHERE },
        left: Left {
            status: 2,
            err: "aprof: cannot read in.txt\n",
            ..NOTHING
        },
    },
    Failure {
        name: "the load of the standard input",
        failing: Failing { file: 2, ..NOWHERE },
        left: Left {
            status: 2,
            err: "aprof: cannot read s\n",
            ..NOTHING
        },
    },
    Failure {
        name: "the load of the schedule",
        failing: Failing { file: 3, ..NOWHERE },
        left: Left {
            status: 2,
            err: "aprof: cannot read c\n",
            ..NOTHING
        },
    },
    Failure {
        name: "the store of the recording",
        failing: Failing { file: 4, ..NOWHERE },
        left: Left {
            status: 4,
            err: "aprof: cannot write\n",
            report: None,
            recording: None,
            ..WHOLE
        },
    },
    Failure {
        name: "the store of the report",
        failing: Failing { file: 5, ..NOWHERE },
        left: Left {
            status: 4,
            err: "aprof: cannot write\n",
            report: None,
            ..WHOLE
        },
    },
    Failure {
        name: "the put on out, behind one byte",
        failing: Failing { out: 0, ..NOWHERE },
        left: Left {
            status: 4,
            out: "o",
            err: "aprof: cannot write\n",
            ..NOTHING
        },
    },
    Failure {
        name: "the put of the statistics",
        failing: Failing { err: 0, ..NOWHERE },
        left: Left {
            status: 4,
            err: "aprof: renu",
            ..WHOLE
        },
    },
    Failure {
        name: "the load of the image, and the put of the last text",
        failing: Failing {
            file: 0,
            err: 0,
            ..NOWHERE
        },
        left: Left {
            status: 2,
            err: "aprof: cann",
            ..NOTHING
        },
    },
    Failure {
        name: "the puts on out and of the last text",
        failing: Failing {
            out: 0,
            err: 0,
            ..NOWHERE
        },
        left: Left {
            status: 4,
            out: "o",
            err: "aprof: can",
            ..NOTHING
        },
    },
    Failure {
        name: "the store of the report, and the put of the last text",
        failing: Failing {
            file: 5,
            err: 0,
            ..NOWHERE
        },
        left: Left {
            status: 4,
            err: "aprof: can",
            report: None,
            ..WHOLE
        },
    },
];

/// A guest that puts three texts on out and two on err, in turns, is ended by the first put that fails: half of its text comes
/// through, and no later one.
pub(crate) const FAILED_PUTS: &[Failure] = &[
    Failure {
        name: "no put",
        failing: NOWHERE,
        left: Left {
            out: "out\nout\nout\n",
            err: "err\nerr\n",
            report: Some(
                "aprof 2\nend exit 0\nsteps 21\nopen 0\nroutine 00010054 -\n2 1 21 21 21 2 0 0 2\ndone 1\n",
            ),
            recording: Some("1 21\n"),
            ..NOTHING
        },
    },
    Failure {
        name: "the first put on out",
        failing: Failing { out: 0, ..NOWHERE },
        left: Left {
            status: 4,
            out: "ou",
            err: "aprof: cannot write\n",
            ..NOTHING
        },
    },
    Failure {
        name: "the second put on out",
        failing: Failing { out: 1, ..NOWHERE },
        left: Left {
            status: 4,
            out: "out\nou",
            err: "err\naprof: cannot write\n",
            ..NOTHING
        },
    },
    Failure {
        name: "the third put on out",
        failing: Failing { out: 2, ..NOWHERE },
        left: Left {
            status: 4,
            out: "out\nout\nou",
            err: "err\nerr\naprof: cannot write\n",
            ..NOTHING
        },
    },
    Failure {
        name: "the first put on err",
        failing: Failing { err: 0, ..NOWHERE },
        left: Left {
            status: 4,
            out: "out\n",
            err: "er",
            ..NOTHING
        },
    },
    Failure {
        name: "the second put on err",
        failing: Failing { err: 1, ..NOWHERE },
        left: Left {
            status: 4,
            out: "out\nout\n",
            err: "err\ner",
            ..NOTHING
        },
    },
];

/// The trace of the smallest guest: a start, three steps and an end of thread 1, and its exit.
pub(crate) const TRACE: &[u8] =
    b"aprof trace 1\n\x07\x01\0\0\0\x54\0\x01\0\x01\x01\0\0\0\x01\x01\0\0\0\x01\x01\0\0\0\x08\x01\0\0\0\x0a\0\0\0\0\0";

// What is left where it is replayed with its statistics, and nothing fails.
const REPLAYED: Left = Left {
    err: "aprof: renumberings 0\n",
    report: Some(
        "aprof 2\nend exit 0\nsteps 3\nopen 0\nroutine 00010054 -\n0 1 3 3 3 0 0 0 0\ndone 1\n",
    ),
    ..NOTHING
};

/// A replay loads its trace, stores the report of it, and puts its statistics then.
pub(crate) const FAILED_REPLAYS: &[Failure] = &[
    Failure {
        name: "nothing",
        failing: NOWHERE,
        left: REPLAYED,
    },
    Failure {
        name: "the load of the trace",
        failing: Failing { file: 0, ..NOWHERE },
        left: Left {
            status: 2,
            err: "aprof: cannot read img\n",
            ..NOTHING
        },
    },
    Failure {
        name: "the store of the report",
        failing: Failing { file: 1, ..NOWHERE },
        left: Left {
            status: 4,
            err: "aprof: cannot write\n",
            ..NOTHING
        },
    },
    Failure {
        name: "the put of the statistics",
        failing: Failing { err: 0, ..NOWHERE },
        left: Left {
            status: 4,
            err: "aprof: renu",
            ..REPLAYED
        },
    },
];
