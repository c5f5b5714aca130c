//! The files that a command loads: what each is for, and its path.
ghost use Rattle.std.specs.Prelude.{◌≡◌, ◌++◌, map, option_map, if◌then◌else◌, IfOk, OnOk};
ghost use Rattle.std.specs.Option.{option_to_list};
ghost use Rattle.command_line.specs.Read.{asked_in, guest_in};
ghost use Rattle.aprof_top.specs.Loads.{guest_loads, is_shared, limit_of, load, loads_of};
ghost use Rattle.aprof_top.specs.Private.Loading.{load_in};
ghost use Rattle.aprof_top.specs.declared.source.Source.TheVariants.{Input};

use command_line::{Command, GuestOptions};
use guest_words::limits::{FILE_BYTES, TRACE_BYTES};
use std::alloc::{AllocError, Global};

/// What a file is loaded for.
#[derive(Clone, Copy)]
pub(crate) enum Source {
    Image,
    // An input file of a guest: its path is its name.
    Input,
    Stdin,
    Schedule,
    // A stored trace.
    Trace,
}

impl Source {
    // Whether such files share the limit on input bytes.
    fn is_shared(self) -> bool
        ensures { result ≡ is_shared self }
    {
        matches!(self, Source::Input | Source::Stdin)
    }

    /// How many bytes of such a file, which is this long, count towards the limit on input bytes.
    pub(crate) fn shared_bytes(self, length: usize) -> usize
        ensures { result ≡ (if is_shared self then length else 0) }
    {
        if self.is_shared() { length } else { 0 }
    }

    /// The most bytes of such a file.
    pub(crate) fn limit(self) -> usize
        ensures { result ≡ limit_of self }
    {
        match self {
            Source::Trace => TRACE_BYTES as usize,
            _ => FILE_BYTES,
        }
    }
}

/// A file that a command loads.
#[derive(Clone, Copy)]
pub(crate) struct Load<'a> {
    pub(crate) source: Source,
    pub(crate) path: &'a str,
}

// One more load, where there is a path for it.
fn push_load<'a>(
    loads: &mut Vec<Load<'a>>,
    source: Source,
    path: Option<&'a str>,
) -> Result<(), AllocError>
    ensures { OnOk result (map load_in loads.new.items ≡ map load_in loads.old.items
        ++ map (load source) (option_to_list (option_map (λ p. p.now) path.entry))) }
{
    if let Some(path) = path {
        loads.push(Load { source, path })?;
    }
    Ok(())
}

// The loads of a guest's input files, behind others.
fn push_inputs<'a>(loads: &mut Vec<Load<'a>>, names: &[&'a str]) -> Result<(), AllocError>
    ensures { OnOk result (map load_in loads.new.items ≡ map load_in loads.old.items
        ++ map (load Input) (map (λ name. name.now) names.now)) }
{
    for name in names {
        let path = *name;
        loads.push(Load {
            source: Source::Input,
            path,
        })?;
    }
    Ok(())
}

// What a guest is run with.
fn guest_loads<'a>(alloc: Global, guest: &GuestOptions<'a>) -> Result<Vec<Load<'a>>, AllocError>
    ensures { IfOk result (λ loads. map load_in loads.items ≡ guest_loads (guest_in guest.now)) }
{
    let names = guest.inputs(alloc)?;
    let mut loads = Vec::new(alloc);
    push_load(&mut loads, Source::Image, Some(guest.image))?;
    push_inputs(&mut loads, names.as_slice())?;
    push_load(&mut loads, Source::Stdin, guest.stdin)?;
    push_load(&mut loads, Source::Schedule, guest.schedule)?;
    Ok(loads)
}

/// What a command loads, in order.
pub(crate) fn loads_of<'a>(
    alloc: Global,
    command: &Command<'a>,
) -> Result<Vec<Load<'a>>, AllocError>
    ensures { IfOk result (λ loads. map load_in loads.items ≡ loads_of (asked_in command.now)) }
{
    match command {
        Command::Guest(command) => guest_loads(alloc, &command.guest),
        Command::Replay(command) => {
            let mut loads = Vec::new(alloc);
            push_load(&mut loads, Source::Trace, Some(command.trace))?;
            Ok(loads)
        }
        Command::Demo(_) => Ok(Vec::new(alloc)),
    }
}
