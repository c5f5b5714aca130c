//! How random traces went.
use std::fmt;
use trace_model::Done;

/// Where a profiler and the definition differ.
#[derive(Clone, Copy)]
pub enum Difference {
    /// In what is recorded at a place of the list.
    Record {
        place: usize,
        recorded: Option<Done>,
        defined: Option<Done>,
    },
    /// In how many activations are open.
    Pending {
        told: u64,
        defined: Option<u64>,
    },
}

/// What random traces came to. They go on up to the first that differs, and `difference` has its seed.
#[derive(Clone, Copy)]
pub struct Outcome {
    pub traces: u64,
    pub events: u64,
    pub ended: u64,
    pub too_deep: u64,
    pub renumbered: u64,
    /// How many pages of access stamps the thread had, where one alone ran.
    pub pages: Option<usize>,
    pub difference: Option<(u64, Difference)>,
}

impl Outcome {
    /// No trace so far.
    pub const NONE: Outcome = Outcome {
        traces: 0,
        events: 0,
        ended: 0,
        too_deep: 0,
        renumbered: 0,
        pages: None,
        difference: None,
    };
}

impl fmt::Display for Difference {
    fn fmt<W: fmt::Write>(&self, f: &mut fmt::Formatter<W>) -> fmt::Result {
        match self {
            Difference::Record {
                place,
                recorded,
                defined,
            } => write!(
                f,
                "record {place} is {recorded:?}, by the definition {defined:?}"
            ),
            Difference::Pending { told, defined } => {
                write!(f, "{told} are open, by the definition {defined:?}")
            }
        }
    }
}

impl fmt::Display for Outcome {
    fn fmt<W: fmt::Write>(&self, f: &mut fmt::Formatter<W>) -> fmt::Result {
        let (traces, events, ended) = (self.traces, self.events, self.ended);
        let (deep, renumbered) = (self.too_deep, self.renumbered);
        write!(
            f,
            "{traces} traces ({deep} too deep), {events} events, {ended} activations, {renumbered} renumberings"
        )?;
        if let Some(pages) = self.pages {
            write!(f, ", {pages} pages of access stamps")?;
        }
        match &self.difference {
            None => write!(f, ": as by the definition"),
            Some((seed, difference)) => write!(
                f,
                ": the trace of seed {seed} differs: {difference}"
            ),
        }
    }
}
