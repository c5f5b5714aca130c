//! The command `demo`: a guest of its own, whose report is summed up.
ghost use Rattle.std.specs.Prelude.{◌≡◌, ◌≤◌, ◌-◌, [], IfOk, IfErr};
ghost use Rattle.elf_image.specs.Image.{page_count};
ghost use Rattle.stamps.specs.Widths.{greatest};
ghost use Rattle.stamps.specs.declared.width.StampBits.TheVariants.{B32};
ghost use Rattle.command_line.specs.Read.{guest_in};
ghost use Rattle.aprof_top.specs.declared.ending.Ending.TheVariants.{OutOfMemory};
ghost use Rattle.aprof_top.specs.Outcome.{IsDemo, demo_options};
ghost use Rattle.aprof_top.specs.Private.Demos.{IsDemoImage, demo_seen};
ghost use Rattle.aprof_top.specs.Private.Jobs.{IsProfiled, summed};

use crate::ending::Ending;
use crate::guest_job::GuestFiles;
use crate::profiled_run::{ProfiledRun, profile_image};
use crate::report::report_of;
use crate::summary::summary;
use command_line::{DEFAULT_BUDGET, DEFAULT_QUANTUM, GuestOptions};
use demo_guest::demo_image;
use elf_image::{Image, read_image};
use guest_kernel::Inputs;
use guest_words::limits::{DEMO_ROUTINES, PAGES, STACK_PAGES};
use host_io::DropSink;
use stamps::StampBits;
use std::alloc::{AllocError, Global};
use thread_sched::Schedule;

// What the demo is run with: no files, and all defaults.
fn demo_guest(alloc: Global) -> GuestOptions<'static>
    ensures { guest_in result ≡ demo_options }
{
    GuestOptions {
        stdin: None,
        schedule: None,
        quantum: DEFAULT_QUANTUM,
        budget: DEFAULT_BUDGET,
        image: "demo",
        words: Vec::new(alloc),
    }
}

// The executable of the demo. It passes all tests, so it is refused only when out of memory.
fn image_of_demo(alloc: Global, number: u32) -> Result<Image, Ending>
    requires { (1 ≤ number) × (number ≤ DEMO_ROUTINES) }
    ensures image { IfOk result (IsDemoImage number) }
    ensures refused { IfErr result (λ e. e ≡ OutOfMemory) }
{
    let file = demo_image(alloc, number)?;
    let image = read_image(alloc, file.as_slice())?;
    Ok(image)
}

// What the demo finds beside its executable: nothing.
fn no_files(alloc: Global) -> Result<GuestFiles, AllocError>
    ensures { IfOk result (λ files. (files.schedule ≡ []) × (files.inputs ≡ [])
        × (files.stdin.items ≡ [])) }
{
    let schedule = Schedule::empty(alloc)?;
    let inputs = Inputs::new(alloc)?;
    Ok(GuestFiles {
        schedule,
        inputs,
        stdin: Vec::new(alloc),
    })
}

// Runs a demo's executable. What it puts out is dropped.
fn profile_demo(alloc: Global, image: &Image) -> Result<ProfiledRun, Ending>
    requires { page_count image.now.segments ≤ PAGES - STACK_PAGES }
    ensures profiled { IfOk result (λ run. IsProfiled (greatest B32) run (demo_seen image.now)) }
    ensures refused { IfErr result (λ e. e ≡ OutOfMemory) }
{
    let files = no_files(alloc)?;
    let guest = demo_guest(alloc);
    let mut out = DropSink;
    let mut err = DropSink;
    let bits = StampBits::B32;
    let run = profile_image(alloc, bits, &guest, image, files, &mut out, &mut err)?;
    Ok(run)
}

// Runs a demo's executable, and sums its report up.
fn sum_up(alloc: Global, number: u32, image: &Image) -> Result<Vec<u8>, Ending>
    requires { IsDemoImage number image.now }
    ensures summary { IfOk result (λ out. IsDemo number (summed out.items)) }
    ensures refused { IfErr result (λ e. e ≡ OutOfMemory) }
{
    let run = profile_demo(alloc, image)?;
    let report = report_of(alloc, image, &run.totals, run.ended.finish)?;
    let text = summary(alloc, number, &report)?;
    Ok(text)
}

/// Runs the demo of this number, and sums its report up. It stands apart from its parts since each value that a `?` may drop
/// takes long to prove.
pub(crate) fn run_demo(alloc: Global, number: u32) -> Result<Vec<u8>, Ending>
    requires { (1 ≤ number) × (number ≤ DEMO_ROUTINES) }
    ensures summary { IfOk result (λ out. IsDemo number (summed out.items)) }
    ensures refused { IfErr result (λ e. e ≡ OutOfMemory) }
{
    let image = image_of_demo(alloc, number)?;
    sum_up(alloc, number, &image)
}
