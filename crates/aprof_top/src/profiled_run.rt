//! The run of a guest, profiled while it goes.
ghost use Rattle.std.specs.Prelude.{◌≤◌, []};
ghost use Rattle.stamps.specs.Widths.{greatest};
ghost use Rattle.trace_model.specs.Depth.{is_within};
ghost use Rattle.command_line.specs.Read.{AreInRange, guest_in};
ghost use Rattle.guest_run.specs.Output.{sinks};
ghost use Rattle.aprof_top.specs.Private.Jobs.{GuestIsRun, IsKept, IsProfiled};

use crate::ending::Ending;
use crate::guest_job::{GuestFiles, run_image};
use command_line::GuestOptions;
use elf_image::Image;
use guest_run::Ended;
use host_io::Sink;
use run_profile::{Counts, Keeper, Points, Profile, Totals};
use stamp_lanes::Lanes;
use stamps::StampBits;
use std::alloc::Global;
use std::marker::Model;

/// What a keeper has of a run, what was counted of it, and how it ended.
#[derive(Drop)]
pub(crate) struct KeptRun<K: Keeper> {
    pub(crate) kept: K,
    pub(crate) counts: Counts,
    pub(crate) ended: Ended,
}

impl<K: Keeper> Model for KeptRun<K> {
    ghost use Rattle.aprof_top.specs.Private.Jobs.{KeptGuest};

    ghost Value = { KeptGuest K };

    ghost view = { λ run. record { kept = run.kept; counts = run.counts; ended = run.ended } };
}

/// What a run came to, and how it ended.
#[derive(Drop)]
pub(crate) struct ProfiledRun {
    pub(crate) totals: Totals,
    pub(crate) ended: Ended,
}

// Runs an executable, and profiles it by stamps of one width.
fn keep_by<S: Lanes, K: Keeper, O: Sink, E: Sink>(
    alloc: Global,
    options: &GuestOptions<'_>,
    image: &Image,
    files: GuestFiles,
    kept: K,
    out: &mut O,
    err: &mut E,
) -> Result<KeptRun<K>, Ending>
    requires range { AreInRange (guest_in options.now) }
    requires stamps { 6 ≤ S.MAX }
    requires nothing { K.holds kept [] [] }
    ensures { GuestIsRun (IsKept K.holds S.MAX) (is_within S.MAX)
        (guest_in options.now) image.now files
        (sinks (O.state out.old) (E.state err.old)) (sinks (O.state out.new) (E.state err.new)) result }
{
    let mut profile = Profile::<S, K>::new(alloc, kept)?;
    let ended = run_image(alloc, options, image, files, &mut profile, out, err)?;
    let (kept, counts) = profile.into_kept()?;
    Ok(KeptRun {
        kept,
        counts,
        ended,
    })
}

/// Runs an executable, and profiles it by stamps of the width; `kept` is a keeper that took no event.
pub(crate) fn keep_run<K: Keeper, O: Sink, E: Sink>(
    alloc: Global,
    bits: StampBits,
    options: &GuestOptions<'_>,
    image: &Image,
    files: GuestFiles,
    kept: K,
    out: &mut O,
    err: &mut E,
) -> Result<KeptRun<K>, Ending>
    requires range { AreInRange (guest_in options.now) }
    requires nothing { K.holds kept [] [] }
    ensures { GuestIsRun (IsKept K.holds (greatest bits)) (is_within (greatest bits))
        (guest_in options.now) image.now files
        (sinks (O.state out.old) (E.state err.old)) (sinks (O.state out.new) (E.state err.new)) result }
{
    match bits {
        StampBits::B8 => keep_by::<u8, K, O, E>(alloc, options, image, files, kept, out, err),
        StampBits::B16 => keep_by::<u16, K, O, E>(alloc, options, image, files, kept, out, err),
        StampBits::B32 => keep_by::<u32, K, O, E>(alloc, options, image, files, kept, out, err),
    }
}

/// Runs an executable, and makes the points of its activations by stamps of the width.
pub(crate) fn profile_image<O: Sink, E: Sink>(
    alloc: Global,
    bits: StampBits,
    options: &GuestOptions<'_>,
    image: &Image,
    files: GuestFiles,
    out: &mut O,
    err: &mut E,
) -> Result<ProfiledRun, Ending>
    requires { AreInRange (guest_in options.now) }
    ensures { GuestIsRun (IsProfiled (greatest bits)) (is_within (greatest bits))
        (guest_in options.now) image.now files
        (sinks (O.state out.old) (E.state err.old)) (sinks (O.state out.new) (E.state err.new)) result }
{
    let points = Points::new(alloc)?;
    let run = keep_run(alloc, bits, options, image, files, points, out, err)?;
    let KeptRun {
        kept,
        counts,
        ended,
    } = run;
    let totals = kept.into_totals(counts)?;
    Ok(ProfiledRun { totals, ended })
}
