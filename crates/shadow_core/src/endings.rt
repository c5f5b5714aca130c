//! What is recorded of calls that end.
ghost use Rattle.std.specs.Prelude.{◌≡◌, ◌+◌, ◌-◌, ◌*◌, ◌<◌, ◌≤◌, ◌^◌, ◌++◌, ◌∷◌, [], ℕ, is_some, length, reverse, true, vec_len};
ghost use Rattle.std.specs.Vec.{vec_capacity};
ghost use Rattle.guest_words.specs.ByThread.{value_of};
ghost use Rattle.stamp_renumber.specs.Threads.{calls_of, frames_of};
ghost use Rattle.stamp_table.specs.Allows.{AreWithin};
ghost use Rattle.shadow_core.specs.Private.Ending.{IsEnded};
ghost use Rattle.stamp_table.specs.Frames.{frames_after_pops};
ghost use Rattle.stamp_table.specs.Records.{nat_of, record_of};

use call_tracker::{BegunCall, ThreadCounts};
use guest_words::Tid;
use shadow_stack::{Steps, Sums};
use stamp_lanes::Lanes;
use stamp_renumber::{EndedCall, Threads};
use std::sync::ledger::Ledger;
use trace_model::Done;

// A number, and 0 for one below it.
fn nat_of(n: i64) -> u64
    ensures { result ≡ nat_of n }
{
    if n < 0 { 0 } else { n as u64 }
}

// What is recorded of a call of the thread that ends, with the sums of its frame, by what the thread has counted.
#[inline(always)]
fn done_with(tid: Tid, counts: ThreadCounts, sums: Sums, call: BegunCall) -> Done
    requires { nat_of sums.plain + (counts.thread - call.earlier.thread)
        + (counts.kernel - call.earlier.kernel) < 2 ^ 64 }
    ensures { result ≡ record_of tid counts sums call }
{
    let plain = nat_of(sums.plain);
    let (steps, thread, kernel) = counts.since(call.earlier());
    Done {
        tid,
        entry: call.entry(),
        size: plain + thread + kernel,
        cost: steps,
        plain,
        thread,
        kernel,
        bare: nat_of(sums.bare),
    }
}

/// What is recorded of a call of the thread that ended.
#[inline(always)]
pub(crate) fn record_of(tid: Tid, ended: EndedCall) -> Done
    requires thread { ended.counts.thread < 2 ^ 62 }
    requires kernel { ended.counts.kernel < 2 ^ 62 }
    ensures { result ≡ record_of tid ended.counts ended.sums ended.call }
{
    done_with(tid, ended.counts, ended.sums, ended.call)
}

// Records a call of the thread that ended. There is room for the record.
#[inline(always)]
fn record_call(tid: Tid, ended: EndedCall, done: &mut Vec<Done>)
    requires thread { ended.counts.thread < 2 ^ 62 }
    requires kernel { ended.counts.kernel < 2 ^ 62 }
    requires room { vec_len done.old + 1 ≤ vec_capacity done.old }
    ensures recorded { done.new.items
        ≡ done.old.items ++ record_of tid ended.counts ended.sums ended.call ∷ [] }
    ensures capacity { vec_capacity done.old ≤ vec_capacity done.new }
    ensures count { vec_len done.new ≡ vec_len done.old + 1 }
{
    let recorded = record_of(tid, ended);
    done.push(recorded).unwrap();
}

// Ends the innermost call of the thread, and records it. There is room for the record.
#[inline(always)]
fn end_call<S: Lanes, L: Ledger>(
    threads: &mut Threads<S>,
    tid: Tid,
    done: &mut Vec<Done>,
    steps: &mut Steps<L>,
)
    requires lives { is_some (value_of threads.old.threads tid) ≡ true }
    requires frames { 1 ≤ length (frames_of threads.old.threads tid) }
    requires calls { 1 ≤ length (calls_of threads.old.threads tid).list }
    requires sums { AreWithin (2 ^ 62 - 1) (frames_of threads.old.threads tid) }
    requires thread { (calls_of threads.old.threads tid).counts.thread < 2 ^ 62 }
    requires kernel { (calls_of threads.old.threads tid).counts.kernel < 2 ^ 62 }
    requires room { vec_len done.old + 1 ≤ vec_capacity done.old }
    ensures ended { IsEnded tid 1 threads.old threads.new done.old.items done.new.items }
    ensures capacity { vec_capacity done.old ≤ vec_capacity done.new }
    ensures count { vec_len done.new ≡ vec_len done.old + 1 }
    ensures cost { steps.new ≡ steps.old + 2 }
{
    steps.count(2); // the thread, and its innermost frame
    let ended = threads.end(tid);
    record_call(tid, ended, done);
}

/// Ends `ended` calls of the thread, the innermost first, and records them. There is room for the records.
#[inline(always)]
pub(crate) fn end_calls<S: Lanes, L: Ledger>(
    threads: &mut Threads<S>,
    tid: Tid,
    ended: usize,
    done: &mut Vec<Done>,
    steps: &mut Steps<L>,
)
    requires lives { is_some (value_of threads.old.threads tid) ≡ true }
    requires frames { ended ≤ length (frames_of threads.old.threads tid) }
    requires calls { ended ≤ length (calls_of threads.old.threads tid).list }
    requires sums { (n : ℕ) → AreWithin (2 ^ 62 - 1)
        (frames_after_pops n (reverse (frames_of threads.old.threads tid))) }
    requires thread { (calls_of threads.old.threads tid).counts.thread < 2 ^ 62 }
    requires kernel { (calls_of threads.old.threads tid).counts.kernel < 2 ^ 62 }
    requires room { vec_len done.old + ended ≤ vec_capacity done.old }
    ensures ended { IsEnded tid ended threads.old threads.new done.old.items done.new.items }
    ensures cost { steps.new ≡ steps.old + 2 * ended }
{
    if ended == 1 {
        end_call(threads, tid, done, steps);
    } else {
        end_many(threads, tid, ended, done, steps);
    }
}

// The same, one after the other.
#[cold]
#[inline(never)]
fn end_many<S: Lanes, L: Ledger>(
    threads: &mut Threads<S>,
    tid: Tid,
    ended: usize,
    done: &mut Vec<Done>,
    steps: &mut Steps<L>,
)
    requires lives { is_some (value_of threads.old.threads tid) ≡ true }
    requires frames { ended ≤ length (frames_of threads.old.threads tid) }
    requires calls { ended ≤ length (calls_of threads.old.threads tid).list }
    requires sums { (n : ℕ) → AreWithin (2 ^ 62 - 1)
        (frames_after_pops n (reverse (frames_of threads.old.threads tid))) }
    requires thread { (calls_of threads.old.threads tid).counts.thread < 2 ^ 62 }
    requires kernel { (calls_of threads.old.threads tid).counts.kernel < 2 ^ 62 }
    requires room { vec_len done.old + ended ≤ vec_capacity done.old }
    ensures ended { IsEnded tid ended threads.old threads.new done.old.items done.new.items }
    ensures cost { steps.new ≡ steps.old + 2 * ended }
{
    let mut count = 0;
    while count < ended {
        end_call(threads, tid, done, steps);
        count += 1;
    }
}
