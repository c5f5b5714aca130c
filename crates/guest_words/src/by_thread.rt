//! Values of threads, by their numbers.
ghost use Rattle.std.specs.Prelude.{◌≡◌, ◌==◌, ◌≤◌, ◌+◌, ◌<◌, ◌++◌, ◌∷◌, [], Some, true, length, All, IsOk, OnOk, OnErr, is_some};
ghost use Rattle.std.specs.Borrow.{sem};
ghost use Rattle.std.specs.List.{position};
ghost use Rattle.std.specs.Option.{option_copied, option_copied_mut};
ghost use Rattle.guest_words.specs.ByThread.{IsRising, numbers, value_of, without_thread};

use crate::Tid;
use std::alloc::{AllocError, Global};
use std::marker::Model;

/// Values of threads, by rising thread number. Contracts see the list of the numbers with their values, and beside it the
/// room: how many threads can be inserted without allocating.
#[derive(Drop)]
pub struct ByThread<T> {
    entries: Vec<(Tid, T)>,
}

impl<T> Model for ByThread<T> {
    ghost use Rattle.std.specs.Prelude.{◌-◌, vec_len};
    ghost use Rattle.std.specs.Vec.{vec_capacity};
    ghost use Rattle.guest_words.specs.ByThread.{IsRising, Table, numbers, table_code};

    ghost Value = { Table T };

    ghost coded = { table_code T.code };

    ghost view = { λ t. record {
      list = t.entries.items;
      room = vec_capacity t.entries - vec_len t.entries;
    } };

    ghost invariant = { λ t. IsRising (numbers t.entries.items) };
}

// The place of the thread, if it has one.
#[inline(always)]
fn find<T>(entries: &[(Tid, T)], tid: Tid) -> Option<usize>
    ensures { result ≡ position (λ x. x.0 == tid) entries.now }
{
    entries.iter().position(|entry| entry.0 == tid)
}

impl<T> ByThread<T> {
    ghost use Rattle.guest_words.specs.LentValue.{lends_place, lends_value};

    /// No thread.
    pub fn new(alloc: Global) -> ByThread<T>
        ensures { result.list ≡ [] }
    {
        ByThread {
            entries: Vec::new(alloc),
        }
    }

    /// How many threads there are.
    pub fn len(&self) -> usize
        ensures value { result ≡ length self.now.list }
        ensures rising { IsRising (numbers self.now.list) }
    {
        self.entries.len()
    }

    /// The threads with their values.
    pub fn list(&self) -> &[(Tid, T)]
        ensures { result.now ≡ self.now.list }
    {
        &self.entries
    }

    /// The value of the thread.
    #[inline(always)]
    pub fn get(&self, tid: Tid) -> Option<&T>
        ensures { option_copied result ≡ value_of self.now.list tid }
    {
        if self.is_first(tid) {
            Some(&self.entries[0].1)
        } else {
            self.search(tid)
        }
    }

    /// The value of a thread that has one.
    #[inline(always)]
    pub fn value(&self, tid: Tid) -> &T
        requires { is_some (value_of self.now.list tid) ≡ true }
        ensures { value_of self.now.list tid ≡ Some result.now }
    {
        if self.entries[0].0 == tid {
            &self.entries[0].1
        } else {
            self.search(tid).unwrap()
        }
    }

    // The value of the thread, at whatever place. Inlined, it shows the compiler where there has to be one.
    #[inline(always)]
    fn search(&self, tid: Tid) -> Option<&T>
        ensures { option_copied result ≡ value_of self.now.list tid }
    {
        let index = find(&self.entries, tid)?;
        Some(&self.entries[index].1)
    }

    /// The value of the thread, for writing.
    #[inline(always)]
    pub fn get_mut(&mut self, tid: Tid) -> Option<&mut T>
        ensures* writes_back { sem 𝓛 (lends_value T.row self.entry tid result) }
        ensures found { option_copied_mut result ≡ value_of self.old.list tid }
    {
        if self.is_first(tid) {
            Some(self.at_mut(tid, 0))
        } else {
            self.search_mut(tid)
        }
    }

    // Whether the thread is the first.
    #[inline(always)]
    fn is_first(&self, tid: Tid) -> bool
        ensures { result ≡ true → position (λ x. x.0 == tid) self.now.list ≡ Some 0 }
    {
        match self.entries.first() {
            Some(entry) => entry.0 == tid,
            None => false,
        }
    }

    // The value of the thread, for writing, at whatever place.
    #[inline(always)]
    fn search_mut(&mut self, tid: Tid) -> Option<&mut T>
        ensures* writes_back { sem 𝓛 (lends_value T.row self.entry tid result) }
        ensures found { option_copied_mut result ≡ value_of self.old.list tid }
    {
        match find(&self.entries, tid) {
            Some(index) => Some(self.at_mut(tid, index)),
            None => None,
        }
    }

    // The value of the thread at its place.
    #[inline(always)]
    fn at_mut(&mut self, tid: Tid, index: usize) -> &mut T
        requires { position (λ x. x.0 == tid) self.old.list ≡ Some index }
        ensures* writes_back { sem 𝓛 (lends_place T.row self.entry tid result) }
        ensures found { value_of self.old.list tid ≡ Some result.now }
    {
        let entry = &mut self.entries[index];
        &mut entry.1
    }
}

impl<T: Drop> ByThread<T> {
    /// Makes room for at least `n` threads.
    pub fn reserve(&mut self, n: usize) -> Result<(), AllocError>
        ensures room { OnOk result (n ≤ self.new.room) }
        ensures list { self.new.list ≡ self.old.list }
        ensures kept { self.old.room ≤ self.new.room }
    {
        self.entries.reserve(n)
    }

    /// One more thread, whose number is above all others. A refused one changes nothing, and none is refused where there is
    /// room.
    pub fn insert(&mut self, tid: Tid, value: T) -> Result<(), AllocError>
        requires above { All (λ n. n < tid) (numbers self.old.list) }
        ensures ok { OnOk result (self.new.list ≡ self.old.list ++ (tid, value) ∷ []) }
        ensures err { OnErr result (self.new.list ≡ self.old.list) }
        ensures room { 1 ≤ self.old.room → IsOk result }
        ensures lowered { self.old.room ≤ self.new.room + 1 }
    {
        self.entries.push((tid, value))?;
        Ok(())
    }

    /// Takes the thread out, where it is one of them.
    pub fn remove(&mut self, tid: Tid)
        ensures list { self.new.list ≡ without_thread self.old.list tid }
        ensures room { self.old.room ≤ self.new.room }
        ensures freed { length self.old.list + self.old.room
            ≤ length self.new.list + self.new.room }
    {
        self.entries.retain(|entry| entry.0 != tid);
    }

    /// Takes all threads out.
    pub fn clear(&mut self)
        ensures list { self.new.list ≡ [] }
        ensures freed { length self.old.list + self.old.room ≤ self.new.room }
    {
        self.entries.clear();
    }
}
