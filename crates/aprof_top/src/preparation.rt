//! What a command that runs a guest does before its run: it reads the image and the schedule.
ghost use Rattle.aprof_top.specs.Private.Loading.{loaded_in};
ghost use Rattle.aprof_top.specs.Private.Preparing.{Prepares};

use crate::ending::Ending;
use crate::guest_job::GuestFiles;
use crate::loaded::Loaded;
use elf_image::{Image, read_image};
use std::alloc::Global;
use thread_sched::Schedule;

/// An executable that can be run, and what its guest finds beside it.
#[derive(Drop)]
pub(crate) struct Prepared {
    pub(crate) image: Image,
    pub(crate) files: GuestFiles,
}

/// Reads the image and the schedule of a guest.
pub(crate) fn prepare(alloc: Global, loaded: Loaded) -> Result<Prepared, Ending>
    ensures { Prepares (loaded_in loaded) result }
{
    let image = read_image(alloc, loaded.image.as_slice())?;
    let schedule = Schedule::read(alloc, loaded.schedule.as_slice())?;
    Ok(Prepared {
        image,
        files: GuestFiles {
            schedule,
            inputs: loaded.inputs,
            stdin: loaded.stdin,
        },
    })
}
