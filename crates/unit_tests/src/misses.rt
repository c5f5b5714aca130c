//! A run of partial and misaligned loads: a routine that reads the four bytes of a word one by one, and one that reads a word
//! that lies in two.
ghost use Rattle.std.specs.Prelude.{◌≡◌};

use cache_lines::Shape;
use cache_profile::{CacheProfile, CacheReport, ReportedMisses, Shaped, write_cache_report};
use guest_words::{Addr, Finish, Tid, Word};
use std::alloc::{AllocError, Global};
use std::marker::Brand;
use std::test::Fail;
use trace_model::{Event, Observer};

const TID: Tid = Tid::FIRST;

fn step() -> Event {
    Event::Step { tid: TID }
}

fn start(entry: Addr) -> Event {
    Event::Start { tid: TID, entry }
}

fn end() -> Event {
    Event::End { tid: TID }
}

fn call(entry: Addr, back: Addr) -> Event {
    Event::Call {
        tid: TID,
        entry,
        back,
    }
}

fn ret(target: Addr) -> Event {
    Event::Ret { tid: TID, target }
}

fn read(at: Addr, count: u32) -> Event {
    Event::Read {
        tid: TID,
        first: Word::of(at),
        count,
    }
}

// The profile of a routine that reads the four bytes of a word one by one, and one that reads a word that lies in two.
fn profile_of<K: Shaped>(alloc: Global, shape: Shape) -> Result<CacheProfile<K>, AllocError>
    requires { shape ≡ K.shape }
{
    let mut profile = CacheProfile::<K>::new(alloc, shape)?;
    for e in [
        start(0x10054),
        step(),
        step(),
        call(0x10068, 0x1005c),
        step(),
        read(0x10400, 1),
        step(),
        read(0x10401, 1),
        step(),
        read(0x10402, 1),
        step(),
        read(0x10403, 1),
        step(),
        ret(0x1005c),
        step(),
        call(0x1007c, 0x10060),
        step(),
        read(0x10406, 2),
        step(),
        ret(0x10060),
        step(),
        step(),
        end(),
    ] {
        if profile.may_follow(&e) {
            profile.observe(e)?;
        }
    }
    Ok(profile)
}

// The report of these events, which end with status 0, where no routine has a name.
fn report_of<K: Shaped>(alloc: Global, shape: Shape) -> Result<Vec<u8>, AllocError>
    requires { shape ≡ K.shape }
{
    let profile = profile_of::<K>(alloc, shape)?;
    let mut routines = Vec::new(alloc);
    for i in 0..profile.routines() {
        let counts = profile.routine(i);
        routines.push(ReportedMisses { counts, name: None })?;
    }
    let report = CacheReport {
        finish: Finish::Exit { status: 0 },
        steps: profile.steps(),
        routines,
    };
    write_cache_report(alloc, &report)
}

#[test]
fn partial_and_misaligned_loads(rt: HostRuntime) -> Result<(), Fail> {
    let words = Shape::new(1, 1, 4).ok_or("no shape")?;
    let text = report_of::<Brand>(rt.alloc(), words)?;
    let wanted =
        b"aprof cache 1\nend exit 0\nsteps 12\nroutine 00010068 -\n4 1\nroutine 0001007c -\n2 2\ndone 2\n";
    assert_eq!(rt; text.as_slice(), wanted.as_slice());
    let wide = Shape::new(1, 1, 64).ok_or("no shape")?;
    let text = report_of::<Brand>(rt.alloc(), wide)?;
    let wanted =
        b"aprof cache 1\nend exit 0\nsteps 12\nroutine 00010068 -\n4 1\nroutine 0001007c -\n1 0\ndone 2\n";
    assert_eq!(rt; text.as_slice(), wanted.as_slice());
    Ok(())
}
