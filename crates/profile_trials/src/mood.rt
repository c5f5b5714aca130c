//! Kinds of random traces.

/// What most events of a trace are.
#[derive(Clone, Copy)]
pub enum Mood {
    /// Accesses, calls, returns and steps.
    Calm,
    /// Those at which the counter ticks.
    Restless,
    /// Calls.
    Climbing,
}

impl Mood {
    /// Of the traces each tenth is restless, and each fiftieth climbs.
    pub fn of_trace(number: u64) -> Mood {
        match number % 50 {
            25 => Mood::Climbing,
            n if n % 10 == 0 => Mood::Restless,
            _ => Mood::Calm,
        }
    }

    /// How many events are offered.
    pub fn events(self) -> u32 {
        match self {
            Mood::Calm => 200,
            Mood::Restless => 2500,
            Mood::Climbing => 900,
        }
    }
}
