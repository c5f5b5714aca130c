//! The line accesses of one event.
ghost use Rattle.std.specs.Prelude.{◌≡◌, ◌+◌, ◌^◌, ◌≤◌, ◌++◌, ℕ, List, length, reverse};
ghost use Rattle.std.specs.List.{count_by, range_with_len};
ghost use Rattle.trace_model.specs.WellFormed.{AreWords};
ghost use Rattle.cache_lines.specs.Kept.{CacheStandsFor};
ghost use Rattle.cache_profile.specs.LineAccesses.{lines_over, missed};

use cache_lines::Cache;
use guest_words::Word;

/// How many line accesses an event has, and how many of them missed.
#[derive(Clone, Copy)]
pub(crate) struct EventAccesses {
    pub accesses: u32,
    pub misses: u32,
}

// Accesses `count` lines, from `first` on, and says how many of them missed.
fn access_lines(cache: &mut Cache, first: u32, count: u32) -> u32
    requires { first + count ≤ 2 ^ 32 }
    ensures shape { cache.new.shape ≡ cache.old.shape }
    ensures misses { (earlier : List ℕ) → CacheStandsFor cache.old earlier
        → result ≡ count_by (λ m. m) (missed cache.old.shape earlier (range_with_len first count)) }
    ensures after { (earlier : List ℕ) → CacheStandsFor cache.old earlier
        → CacheStandsFor cache.new (reverse (range_with_len first count) ++ earlier) }
{
    let mut misses = 0;
    for k in 0..count {
        if cache.access(first + k) {
            misses += 1;
        }
    }
    misses
}

/// Accesses the lines that these words lie in, rising.
pub(crate) fn access_words(cache: &mut Cache, first: Word, count: u32) -> EventAccesses
    requires { AreWords first count }
    ensures shape { cache.new.shape ≡ cache.old.shape }
    ensures some { 1 ≤ result.accesses }
    ensures accesses { result.accesses ≡ length (lines_over cache.old.shape first count) }
    ensures misses { (earlier : List ℕ) → CacheStandsFor cache.old earlier
        → result.misses ≡ count_by (λ m. m) (missed cache.old.shape earlier (lines_over cache.old.shape first count)) }
    ensures after { (earlier : List ℕ) → CacheStandsFor cache.old earlier
        → CacheStandsFor cache.new (reverse (lines_over cache.old.shape first count) ++ earlier) }
{
    let first = first.number();
    let first_line = cache.line_of(4 * first);
    let last_line = cache.line_of(4 * (first + (count - 1)));
    let accesses = last_line - first_line + 1;
    let misses = access_lines(cache, first_line, accesses);
    EventAccesses { accesses, misses }
}
