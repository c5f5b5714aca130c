//! Random traces.
ghost use Rattle.std.specs.Prelude.{◌≤◌, OnOk};
ghost use Rattle.profile_trials.specs.Trial.{IsTrial};

use crate::mood::Mood;
use crate::outcome::Outcome;
use crate::random::Random;
use crate::trial::{Offered, Trial};
use guest_words::Tid;
use stamp_lanes::Lanes;
use std::alloc::{AllocError, Global};
use trace_model::Event;

// Offers random events up to the first that is too deep; says whether there was one.
fn offer_random<S: Lanes>(
    trial: &mut Trial<S>,
    random: &mut Random,
    mood: Mood,
) -> Result<bool, AllocError>
    requires { IsTrial S.MAX trial.old }
    ensures { OnOk result (IsTrial S.MAX trial.new) }
{
    for _ in 0..mood.events() {
        if let Offered::TooDeep = trial.offer(random.event(mood))? {
            return Ok(true);
        }
    }
    Ok(false)
}

// Offers the end of each thread.
fn end_all<S: Lanes>(trial: &mut Trial<S>) -> Result<(), AllocError>
    requires { IsTrial S.MAX trial.old }
    ensures { OnOk result (IsTrial S.MAX trial.new) }
{
    for number in 1..4 {
        if let Some(tid) = Tid::new(number) {
            trial.offer(Event::End { tid })?;
        }
    }
    Ok(())
}

/// Adds a trace to the outcome.
pub fn add_trial<S: Lanes>(
    alloc: Global,
    trial: &Trial<S>,
    seed: u64,
    too_deep: bool,
    outcome: &mut Outcome,
) -> Result<(), AllocError>
    requires { IsTrial S.MAX trial.now }
{
    outcome.traces = outcome.traces.wrapping_add(1);
    outcome.events = outcome.events.wrapping_add(trial.events() as u64);
    outcome.ended = outcome.ended.wrapping_add(trial.ended() as u64);
    outcome.too_deep = outcome.too_deep.wrapping_add(u64::from(too_deep));
    outcome.renumbered = outcome.renumbered.wrapping_add(trial.renumbered());
    outcome.difference = trial
        .difference(alloc)?
        .map(|difference| (seed, difference));
    Ok(())
}

// Adds the random trace of this seed. In one that is too deep the activations stay open.
fn add_random<S: Lanes>(alloc: Global, seed: u64, outcome: &mut Outcome) -> Result<(), AllocError>
    requires { 3 ≤ S.MAX }
{
    let mut trial = Trial::<S>::new(alloc)?;
    let too_deep = offer_random(&mut trial, &mut Random::new(seed), Mood::of_trace(seed))?;
    if !too_deep {
        end_all(&mut trial)?;
    }
    add_trial(alloc, &trial, seed, too_deep, outcome)
}

/// The traces of the seeds below `count`, up to the first that differs from the definition.
pub fn try_traces<S: Lanes>(alloc: Global, count: u64) -> Result<Outcome, AllocError>
    requires { 3 ≤ S.MAX }
{
    let mut outcome = Outcome::NONE;
    for seed in 0..count {
        add_random::<S>(alloc, seed, &mut outcome)?;
        if outcome.difference.is_some() {
            break;
        }
    }
    Ok(outcome)
}
