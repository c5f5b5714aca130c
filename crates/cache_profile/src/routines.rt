//! Line accesses by routine.
ghost use Rattle.std.specs.Prelude.{◌≡◌};
ghost use Rattle.cache_profile.specs.Private.Added.{HasRoom, plus};

use cost_points::Keyed;
use guest_words::Addr;

/// The line accesses of a routine: its entry, how many they are, and how many of them missed.
#[derive(Clone, Copy, Debug, PartialEq, Eq)]
pub struct RoutineMisses {
    pub entry: Addr,
    pub accesses: u128,
    pub misses: u128,
}

impl Keyed for RoutineMisses {
    ghost key_of = { λ r. r.entry };

    #[inline(always)]
    fn key(&self) -> u64 {
        u64::from(self.entry)
    }
}

impl RoutineMisses {
    /// Adds that many accesses and misses.
    #[inline(always)]
    pub(crate) fn add(&mut self, accesses: u32, misses: u32)
        requires { HasRoom self.old }
        ensures { self.new ≡ plus accesses misses self.old }
    {
        self.accesses += u128::from(accesses);
        self.misses += u128::from(misses);
    }
}
