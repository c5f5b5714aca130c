//! How many open calls a return ends.
ghost use Rattle.std.specs.Prelude.{◌≡◌, ◌==◌, ◌≤◌, ℕ, Option, length, map, reverse, true};
ghost use Rattle.trace_model.specs.Activations.{count_returned};

use guest_words::Addr;

/// A call that is open, as its owner keeps it: it knows where it returns to.
pub trait Returns: Copy {
    /// Its return address, which the first routine of a thread does not have.
    ghost back_of: { Self → Option ℕ };

    /// Its return address, which the first routine of a thread does not have.
    fn back(&self) -> Option<Addr>
        ensures { result ≡ back_of self.now };
}

/// Whether the innermost of the calls, the last, returns to the target: whether a return to it ends that call and no other.
#[inline(always)]
pub fn top_returns_to<C: Returns>(target: Addr, calls: &[C]) -> bool
    ensures some { result ≡ true → 1 ≤ length calls.now }
    ensures one { result ≡ (count_returned target (map C.back_of (reverse calls.now)) == 1) }
{
    match calls.last() {
        Some(call) => call.back() == Some(target),
        None => false,
    }
}

/// How many of the calls, the outermost first, a return to the target ends.
pub(crate) fn count_returned<C: Returns>(target: Addr, calls: &[C]) -> usize
    ensures count { result ≡ count_returned target (map C.back_of (reverse calls.now)) }
    ensures within { result ≤ length calls.now }
{
    calls
        .iter()
        .rev()
        .position(|call| call.back() == Some(target))
        .map_or(0, |k| k + 1)
}
