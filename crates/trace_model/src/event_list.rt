//! A list of events with room made ahead, so that adding one does not allocate.
ghost use Rattle.std.specs.Prelude.{◌≡◌, ◌≤◌, ◌+◌, ◌++◌, ◌∷◌, [], length, take, OnOk, IfOk};

use crate::{Event, Observed, Observer};
use std::alloc::{AllocError, Global};
use std::marker::Model;

/// Events in the order in which they came. Contracts see the list, and beside it the room: how many events can still be
/// pushed.
#[derive(Drop)]
pub struct Events {
    items: Vec<Event>,
}

impl Model for Events {
    ghost use Rattle.std.specs.Prelude.{◌-◌, vec_len};
    ghost use Rattle.std.specs.Vec.{vec_capacity};
    ghost use Rattle.trace_model.specs.EventList.{EventList};

    ghost Value = { EventList };

    ghost view = { λ e. record {
      list = e.items.items;
      room = vec_capacity e.items - vec_len e.items;
    } };
}

impl Events {
    /// No event.
    pub fn new(alloc: Global) -> Result<Events, AllocError>
        ensures { IfOk result (λ events. events.list ≡ []) }
    {
        Ok(Events {
            items: Vec::new(alloc),
        })
    }

    /// Makes room for at least `n` events.
    pub fn reserve(&mut self, n: usize) -> Result<(), AllocError>
        ensures room { OnOk result (n ≤ self.new.room) }
        ensures list { self.new.list ≡ self.old.list }
        ensures kept { self.old.room ≤ self.new.room }
    {
        self.items.reserve(n)
    }

    /// How many events can be pushed.
    pub fn room(&self) -> usize
        ensures { result ≡ self.now.room }
    {
        self.items.capacity() - self.items.len()
    }

    /// Adds an event at the end. It does not allocate.
    pub fn push(&mut self, e: Event)
        requires { 1 ≤ self.old.room }
        ensures list { self.new.list ≡ self.old.list ++ e ∷ [] }
        ensures room { self.old.room ≤ self.new.room + 1 }
    {
        let _ = self.items.push(e);
    }

    /// Empties the list. The room of its events is free again.
    pub fn clear(&mut self)
        ensures list { self.new.list ≡ [] }
        ensures room { length self.old.list + self.old.room ≤ self.new.room }
    {
        self.items.clear();
    }

    /// Keeps the first `n` events. The room of the others is free again.
    pub fn truncate(&mut self, n: usize)
        ensures list { self.new.list ≡ take n self.old.list }
        ensures room { self.old.room ≤ self.new.room }
        ensures freed { length self.old.list + self.old.room
            ≤ length self.new.list + self.new.room }
    {
        self.items.truncate(n);
    }

    /// The events.
    pub fn list(&self) -> &[Event]
        ensures { result.now ≡ self.now.list }
    {
        &self.items
    }
}

/// The list stands for the events that it has, and takes all that come.
impl Observer for Events {
    ghost use Rattle.std.specs.Prelude.{◌≡◌, true, reverse, refl};

    ghost stands = { λ events past. reverse events.list ≡ past };

    ghost fits = { λ events past. true };

    ghost fits_closed = { λ events e past fits. refl };

    ghost steps_fit = { λ events tid past fits. refl };

    fn observe(&mut self, e: Event) -> Result<Observed, AllocError> {
        self.reserve(1)?;
        self.push(e);
        Ok(Observed::Taken)
    }
}
