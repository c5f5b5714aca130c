//! The live threads: which there are, and what waits for their ends.
ghost use Rattle.std.specs.Prelude.{◌≡◌, ◌+◌, [], true, false, not, map, filter, IfSome, IfNone};
ghost use Rattle.std.specs.Vec.{vec_capacity};
ghost use Rattle.guest_kernel.specs.Kernel.{can_run, has_others, is_thread, other_threads};
ghost use Rattle.guest_kernel.specs.Threads.{clear_tid_of, is_full, with_clear_tid, with_thread};

use crate::State;
use crate::thread::Thread;
use guest_words::limits::THREADS;
use guest_words::{Addr, Tid};

impl State {
    /// Whether another thread lives.
    pub fn has_others(&self, tid: Tid) -> bool
        ensures { result ≡ has_others self.now tid }
    {
        self.threads.iter().any(|t| t.tid != tid)
    }

    /// Where a zero is written when the thread ends, or 0.
    pub fn clear_tid_of(&self, tid: Tid) -> Addr
        ensures { result ≡ clear_tid_of self.now tid }
    {
        for t in &self.threads {
            if t.tid == tid {
                return t.clear_tid;
            }
        }
        0
    }

    /// Sets where a zero is written when the thread ends.
    pub fn set_clear_tid(&mut self, tid: Tid, at: Addr)
        ensures { self.new ≡ record self.old {
          threads = map (with_clear_tid tid at) self.old.threads;
        } }
    {
        set_clear_tid(&mut self.threads, tid, at);
    }

    /// Removes the thread, which is not blocked.
    pub fn remove(&mut self, tid: Tid)
        requires { can_run self.old tid ≡ true }
        ensures { self.new ≡ record self.old { threads = other_threads self.old tid } }
    {
        remove_thread(&mut self.threads, tid);
    }

    /// Removes all threads.
    pub fn remove_all(&mut self)
        ensures { self.new ≡ record self.old { threads = []; waiting = []; deadlines = [] } }
    {
        self.threads.clear();
        self.waiting.clear();
        self.deadlines.clear();
    }

    /// The number of the next thread; None where as many threads live as can, or the numbers are spent.
    pub fn next_tid(&self) -> Option<Tid>
        ensures none { IfNone result (is_full self.now ≡ true) }
        ensures some { IfSome result (λ tid. tid ≡ self.now.last_tid + 1) }
        ensures room { IfSome result (λ _. is_full self.now ≡ false) }
    {
        if self.threads.len() >= THREADS {
            return None;
        }
        Tid::new(self.last_tid.number() + 1)
    }

    /// One more thread lives.
    pub fn add_thread(&mut self, tid: Tid, clear_tid: Addr)
        requires next { tid ≡ self.old.last_tid + 1 }
        requires room { is_full self.old ≡ false }
        ensures { self.new ≡ with_thread tid clear_tid self.old }
    {
        self.threads.push(Thread { tid, clear_tid }).unwrap();
        self.last_tid = tid;
    }
}

// Takes a thread out.
fn remove_thread(threads: &mut Vec<Thread>, tid: Tid)
    ensures left { threads.new.items ≡ filter (λ t. not (is_thread tid t)) threads.old.items }
    ensures room { vec_capacity threads.new ≡ vec_capacity threads.old }
{
    threads.retain(|t| t.tid != tid);
}

// Sets where a zero is written when the thread ends.
fn set_clear_tid(threads: &mut [Thread], tid: Tid, at: Addr)
    ensures { threads.new ≡ map (with_clear_tid tid at) threads.old }
{
    for t in threads.iter_mut() {
        if t.tid == tid {
            t.clear_tid = at;
        }
    }
}
