//! Reading a stored trace into a profile.
ghost use Rattle.std.specs.Prelude.{◌≡◌, ◌≤◌, ◌<◌, ◌+◌, ◌^◌, ◌++◌, [], List, ℕ, length, None, Some, Err, IfOk, OnOk, IfErr};
ghost use Rattle.trace_file.specs.Reading.{IsTraceRefused};
ghost use Rattle.trace_file.specs.declared.errors.TraceError.{TraceError};
ghost use Rattle.trace_model.specs.declared.event_kinds.Event.{Event};
ghost use Rattle.stored_traces.specs.Replays.{HasReplayed, IsBeforeRefusal, Replays};

use guest_words::{Addr, Finish, Name};
use run_profile::{Points, Profile, Totals};
use stamp_lanes::Lanes;
use std::alloc::{AllocError, Global};
use std::marker::Model;
use trace_file::{TraceEnd, TraceError, TraceReader};
use trace_model::{Events, Observed, feed};

// How many bytes are read at a time.
const PIECE: usize = 4096;

/// The totals of a stored trace, as `IsReplayOf` says.
#[derive(Drop)]
pub struct Replayed {
    /// The totals of the trace, as long as stamps of the width tell its open activations apart.
    pub totals: Totals,
    /// Whether they do so to its end.
    pub whole: bool,
    /// The names of the routines, by rising entry.
    pub names: Vec<(Addr, Name)>,
    /// How the run ended.
    pub finish: Finish,
}

/// A trace that is being read in any pieces, and the profile of its events so far. What of it is refused is told as it is, and
/// not as out of memory: memory can fail before the refusal is reached, and not at it.
#[derive(Drop)]
pub struct TraceProfile<S: Lanes> {
    reader: TraceReader,
    profile: Profile<S, Points>,
    whole: bool,
    // Room for the events of a piece.
    events: Events,
}

impl<S: Lanes> Model for TraceProfile<S> {
    ghost use Rattle.stored_traces.specs.Replays.{Going};

    ghost Value = { Going };

    ghost view = { λ r. record { reader = r.reader; profile = r.profile; whole = r.whole } };
}

impl<S: Lanes> TraceProfile<S> {
    /// Nothing is read.
    pub fn new(alloc: Global) -> Result<TraceProfile<S>, AllocError>
        requires { 3 ≤ S.MAX }
        ensures { IfOk result (λ replay. HasReplayed S.MAX replay []) }
    {
        Ok(TraceProfile {
            reader: TraceReader::new(alloc)?,
            profile: Profile::new(alloc, Points::new(alloc)?)?,
            whole: true,
            events: Events::new(alloc)?,
        })
    }

    /// Reads a piece more, and profiles its events as long as they are taken. What the reader refuses is told as it is; where
    /// memory fails, nothing that was read is refused.
    pub fn feed(&mut self, piece: &[u8]) -> Result<(), TraceError>
        requires { (bytes : List ℕ) × HasReplayed S.MAX self.old bytes
            × (length bytes + length piece.now < 2 ^ 64) }
        ensures ok { (bytes : List ℕ) → HasReplayed S.MAX self.old bytes
            → OnOk result (HasReplayed S.MAX self.new (bytes ++ piece.now)) }
        ensures err { (bytes more : List ℕ) → HasReplayed S.MAX self.old bytes
            → IfErr result (λ e. (past : List Event) × IsTraceRefused (bytes ++ (piece.now ++ more)) past e) }
        ensures refused { (e : TraceError) → self.new.reader.refusal ≡ Some e → result ≡ Err e }
        ensures memory { (bytes : List ℕ) → HasReplayed S.MAX self.old bytes
            → self.old.reader.refusal ≡ None → result ≡ Err TraceError.Memory
            → IsBeforeRefusal self.new.reader (bytes ++ piece.now) }
    {
        self.events.clear();
        self.reader.feed(piece, &mut self.events)?;
        if self.whole {
            match feed(self.events.list(), &mut self.profile)? {
                Observed::Taken => {}
                Observed::Refused => self.whole = false,
            }
        }
        Ok(())
    }

    /// The totals of the trace, if the bytes are one. What the reader refuses is reported as it is.
    pub fn finish(self) -> Result<Replayed, TraceError>
        requires { (bytes : List ℕ) × HasReplayed S.MAX self bytes }
        ensures replays { (bytes : List ℕ) → HasReplayed S.MAX self bytes
            → Replays S.MAX bytes result }
        ensures refused { (e : TraceError) → self.reader.refusal ≡ Some e → result ≡ Err e }
        ensures short { self.reader.refusal ≡ None → self.reader.finish ≡ None
            → result ≡ Err TraceError.Short }
    {
        let TraceProfile {
            reader,
            profile,
            whole,
            ..
        } = self;
        let TraceEnd { names, finish } = reader.finish()?;
        let (points, counts) = profile.into_kept()?;
        let totals = points.into_totals(counts)?;
        Ok(Replayed {
            totals,
            whole,
            names,
            finish,
        })
    }
}

/// Reads the text of a trace, and profiles its events by stamps of a width. No clause on these bytes alone can say more of
/// `Memory` than that it may come, since the first step allocates: `TraceProfile` says before what it comes.
pub fn replay<S: Lanes>(alloc: Global, bytes: &[u8]) -> Result<Replayed, TraceError>
    requires { 3 ≤ S.MAX }
    ensures { Replays S.MAX bytes.now result }
{
    let mut replay = TraceProfile::<S>::new(alloc)?;
    let mut rest = bytes;
    while !rest.is_empty() {
        let (piece, behind) = rest.split_at(rest.len().min(PIECE));
        replay.feed(piece)?;
        rest = behind;
    }
    replay.finish()
}
