//! Random events of a few threads, words and addresses.
ghost use Rattle.std.specs.Prelude.{◌<◌};

use crate::mood::Mood;
use guest_words::{Addr, Tid, Word};
use trace_model::Event;

/// Random numbers by SplitMix64 (Steele, Lea and Flood, "Fast Splittable Pseudorandom Number Generators", OOPSLA 2014).
#[derive(Drop)]
pub struct Random {
    state: u64,
}

impl Random {
    /// The numbers of this seed.
    pub fn new(seed: u64) -> Random {
        Random { state: seed }
    }

    // The next number.
    fn next(&mut self) -> u64 {
        self.state = self.state.wrapping_add(0x9e37_79b9_7f4a_7c15);
        let z = (self.state ^ (self.state >> 30)).wrapping_mul(0xbf58_476d_1ce4_e5b9);
        let z = (z ^ (z >> 27)).wrapping_mul(0x94d0_49bb_1331_11eb);
        z ^ (z >> 31)
    }

    // A number below `n`.
    fn below(&mut self, n: u32) -> u32
        requires { 0 < n }
        ensures { result < n }
    {
        (self.next() >> 32) as u32 % n
    }

    // One of three threads.
    fn tid(&mut self) -> Tid {
        Tid::new(1 + self.below(3)).unwrap_or(Tid::FIRST)
    }

    // One of four words round the end of a page.
    fn word(&mut self) -> Word {
        Word::of(4 * (1021 + self.below(4)))
    }

    // One of two addresses of code.
    fn code(&mut self) -> Addr {
        16 + 4 * self.below(2)
    }

    // A fill, or now and then a step: where they may follow, the counter mostly ticks.
    fn tick(&mut self) -> Event {
        if self.below(4) == 0 {
            Event::Step { tid: self.tid() }
        } else {
            Event::Fill {
                first: self.word(),
                count: 1 + self.below(3),
            }
        }
    }

    // How many words an access has: now and then more than a block of lanes.
    fn count(&mut self) -> u32 {
        if self.below(16) == 0 {
            1 + self.below(40)
        } else {
            1 + self.below(3)
        }
    }

    // A read or a write.
    fn access(&mut self) -> Event {
        let (tid, first, count) = (self.tid(), self.word(), self.count());
        if self.below(5) < 3 {
            Event::Read { tid, first, count }
        } else {
            Event::Write { tid, first, count }
        }
    }

    fn call(&mut self) -> Event {
        Event::Call {
            tid: self.tid(),
            entry: self.code(),
            back: self.code(),
        }
    }

    fn ret(&mut self) -> Event {
        Event::Ret {
            tid: self.tid(),
            target: self.code(),
        }
    }

    // A thread starts, or now and then ends.
    fn life(&mut self) -> Event {
        let tid = self.tid();
        if self.below(16) == 0 {
            Event::End { tid }
        } else {
            Event::Start {
                tid,
                entry: self.code(),
            }
        }
    }

    /// An event, which may follow or not.
    pub fn event(&mut self, mood: Mood) -> Event {
        let kind = match mood {
            Mood::Calm => self.below(16),
            Mood::Restless => self.below(64),
            Mood::Climbing => self.below(13),
        };
        match kind {
            0 => self.life(),
            1..=2 => self.access(),
            3..=4 => self.call(),
            5..=7 if matches!(mood, Mood::Climbing) => self.call(),
            5..=6 => self.ret(),
            7..=9 => self.access(),
            10..=14 => Event::Step { tid: self.tid() },
            _ => self.tick(),
        }
    }
}
