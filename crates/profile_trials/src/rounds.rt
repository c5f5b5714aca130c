//! Traces of one thread that does the same again and again.
ghost use Rattle.std.specs.Prelude.{◌≤◌, OnOk};
ghost use Rattle.profile_trials.specs.Trial.{IsTrial};

use crate::outcome::Outcome;
use crate::traces::add_trial;
use crate::trial::Trial;
use guest_words::Tid;
use stamp_lanes::Lanes;
use std::alloc::{AllocError, Global};
use trace_model::Event;

// Offers events one after the other.
fn offer_all<S: Lanes>(trial: &mut Trial<S>, events: &[Event]) -> Result<(), AllocError>
    requires { IsTrial S.MAX trial.old }
    ensures { OnOk result (IsTrial S.MAX trial.new) }
{
    for e in events {
        trial.offer(*e)?;
    }
    Ok(())
}

/// `count` rounds of the thread, from its start to its end.
pub fn try_rounds<S: Lanes>(
    alloc: Global,
    tid: Tid,
    round: &[Event],
    count: u32,
) -> Result<Outcome, AllocError>
    requires { 3 ≤ S.MAX }
{
    let mut trial = Trial::<S>::new(alloc)?;
    trial.offer(Event::Start { tid, entry: 16 })?;
    for _ in 0..count {
        offer_all(&mut trial, round)?;
    }
    let pages = trial.access_pages(tid);
    trial.offer(Event::End { tid })?;
    let mut outcome = Outcome::NONE;
    add_trial(alloc, &trial, 0, false, &mut outcome)?;
    outcome.pages = Some(pages);
    Ok(outcome)
}
