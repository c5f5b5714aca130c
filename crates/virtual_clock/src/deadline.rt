//! One deadline, and the first of several.
ghost use Rattle.std.specs.Prelude.{◌≡◌};
ghost use Rattle.virtual_clock.specs.Order.{comes_before, first_of, sooner};

use guest_words::Tid;

/// A thread wakes at the time, with the answer.
#[derive(Clone, Copy, Debug, PartialEq, Eq)]
pub struct Deadline {
    pub tid: Tid,
    pub at: u64,
    pub answer: u32,
}

// Whether the deadline comes before the other: by time, then by thread.
fn comes_before(d: &Deadline, e: &Deadline) -> bool
    ensures { result ≡ comes_before d.now e.now }
{
    d.at < e.at || d.at == e.at && d.tid.number() < e.tid.number()
}

// The one that comes first, where one more joins.
fn sooner(first: Option<Deadline>, d: &Deadline) -> Option<Deadline>
    ensures { result ≡ sooner first d.now }
{
    match first {
        Some(e) if !comes_before(d, &e) => Some(e),
        _ => Some(*d),
    }
}

/// The deadline that comes before all others.
pub(crate) fn first(deadlines: &[Deadline]) -> Option<Deadline>
    ensures { result ≡ first_of deadlines.now }
{
    deadlines.iter().fold(None, sooner)
}
