//! A trial of a profiler, beside the order of its events and the events themselves.
ghost use Rattle.std.specs.Prelude.{◌≡◌, ◌≤◌, IfOk, OnOk};
ghost use Rattle.profile_trials.specs.Trial.{IsTrial};

use crate::outcome::Difference;
use guest_words::Tid;
use shadow_core::{ApplyError, Profiler};
use stamp_lanes::Lanes;
use std::alloc::{AllocError, Global};
use std::marker::Model;
use trace_model::{Done, Event, Events, slow_done};
use trace_order::Order;

/// What became of an event that was offered.
#[derive(Clone, Copy)]
pub enum Offered {
    /// It may not follow.
    Passed,
    Taken,
    TooDeep,
}

/// A profiler, and the events that it took.
#[derive(Drop)]
pub struct Trial<S: Lanes> {
    order: Order,
    profiler: Profiler<S>,
    kept: Events,
    done: Vec<Done>,
}

impl<S: Lanes> Model for Trial<S> {
    ghost use Rattle.profile_trials.specs.Trial.{TrialState};

    ghost Value = { TrialState };

    ghost view = { λ t. record { order = t.order; stamps = t.profiler; kept = t.kept.list; done = t.done.items } };
}

// Whether the event begins an activation.
fn begins(e: &Event) -> bool {
    matches!(e, Event::Start { .. } | Event::Call { .. })
}

// Where the records differ first.
fn first_difference(recorded: &[Done], defined: &[Done]) -> Option<Difference> {
    for place in 0..recorded.len().max(defined.len()) {
        let (recorded, defined) = (recorded.get(place).copied(), defined.get(place).copied());
        if recorded != defined {
            return Some(Difference::Record {
                place,
                recorded,
                defined,
            });
        }
    }
    None
}

impl<S: Lanes> Trial<S> {
    /// No event so far.
    pub fn new(alloc: Global) -> Result<Trial<S>, AllocError>
        requires { 3 ≤ S.MAX }
        ensures { IfOk result (IsTrial S.MAX) }
    {
        Ok(Trial {
            order: Order::new(alloc)?,
            profiler: Profiler::new(alloc)?,
            kept: Events::new(alloc)?,
            done: Vec::new(alloc),
        })
    }

    /// How many pages of stamps the thread's accesses have.
    pub fn access_pages(&self, tid: Tid) -> usize {
        self.profiler.access_pages(tid)
    }

    /// Takes the event, if it may follow and is not too deep.
    pub fn offer(&mut self, e: Event) -> Result<Offered, AllocError>
        requires { IsTrial S.MAX self.old }
        ensures { OnOk result (IsTrial S.MAX self.new) }
    {
        if !self.order.may_follow(&e) {
            return Ok(Offered::Passed);
        }
        match self.profiler.apply(e, &mut self.done) {
            Ok(()) => {}
            Err(ApplyError::TooDeep { .. }) => return Ok(Offered::TooDeep),
            Err(ApplyError::Memory) => return Err(AllocError),
        }
        self.order.add(e)?;
        self.kept.reserve(1)?;
        self.kept.push(e);
        Ok(Offered::Taken)
    }

    /// Where the profiler's records and its open activations are not those of the definition. An activation that began is
    /// open as long as it is not among those that ended.
    pub fn difference(&self, alloc: Global) -> Result<Option<Difference>, AllocError>
        requires { IsTrial S.MAX self.now }
    {
        let slow = slow_done(alloc, self.kept.list())?;
        let begun = self.kept.list().iter().filter(|e| begins(e)).count() as u64;
        let (told, defined) = (
            self.profiler.pending(),
            begun.checked_sub(slow.len() as u64),
        );
        if Some(told) != defined {
            return Ok(Some(Difference::Pending { told, defined }));
        }
        Ok(first_difference(&self.done, &slow))
    }

    /// How many events it took.
    pub fn events(&self) -> usize {
        self.kept.list().len()
    }

    /// How many activations ended.
    pub fn ended(&self) -> usize {
        self.done.len()
    }

    /// How often the stamps were renumbered.
    pub fn renumbered(&self) -> u64 {
        self.profiler.renumbered()
    }
}
