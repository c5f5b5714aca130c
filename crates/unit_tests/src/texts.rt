//! A trace of 49 bytes, written and read.
use guest_words::{Addr, Finish, Name, Tid};
use std::alloc::Global;
use std::test::Fail;
use trace_file::{TraceEnd, TraceError, TraceReader, TraceWriter};
use trace_model::{Event, Events};

// A thread that starts, runs three instructions and ends, with status 0.
const TRACE: [u8; 49] =
    *b"aprof trace 1\n\x07\x01\0\0\0\x54\0\x01\0\x01\x01\0\0\0\x01\x01\0\0\0\x01\x01\0\0\0\x08\x01\0\0\0\x0a\0\0\0\0\0";

// The line and the record of a step of the first thread.
const STEP_FIRST: [u8; 19] = *b"aprof trace 1\n\x01\x01\0\0\0";

fn step() -> Event {
    Event::Step { tid: Tid::FIRST }
}

fn start() -> Event {
    Event::Start {
        tid: Tid::FIRST,
        entry: 0x10054,
    }
}

fn end() -> Event {
    Event::End { tid: Tid::FIRST }
}

// Reads the bytes one by one.
fn read(alloc: Global, bytes: &[u8], events: &mut Events) -> Result<TraceEnd, TraceError> {
    let mut reader = TraceReader::new(alloc)?;
    for i in 0..bytes.len() {
        reader.feed(&bytes[i..i + 1], events)?;
    }
    reader.finish()
}

#[test]
fn a_trace_is_written(rt: HostRuntime) -> Result<(), Fail> {
    let mut writer = TraceWriter::new(rt.alloc())?;
    for e in [start(), step(), step(), step(), end()] {
        if writer.may_follow(&e) {
            writer.push(e)?;
        }
    }
    assert_eq!(rt; writer.length(), 43);
    let names: [(Addr, Name); 0] = [];
    let text = writer.finish(&names, &Finish::Exit { status: 0 })?;
    assert_eq!(rt; text.as_slice(), TRACE.as_slice());
    Ok(())
}

#[test]
fn a_trace_is_read_byte_by_byte(rt: HostRuntime) -> Result<(), Fail> {
    let mut events = Events::new(rt.alloc())?;
    let read = read(rt.alloc(), &TRACE, &mut events).expect(&rt, "a trace");
    assert_eq!(rt;
        events.list(),
        [start(), step(), step(), step(), end()].as_slice()
    );
    assert!(rt; read.names.is_empty());
    assert_eq!(rt; read.finish, Finish::Exit { status: 0 });
    Ok(())
}

#[test]
fn other_bytes_are_refused(rt: HostRuntime) -> Result<(), Fail> {
    let mut unknown = TRACE;
    unknown[14] = 0x0b;
    for (bytes, error) in [
        (&TRACE[..48], TraceError::Short),
        (unknown.as_slice(), TraceError::Record { at: 14 }),
        (STEP_FIRST.as_slice(), TraceError::Order { at: 14 }),
        (b"aprof trace 2\n".as_slice(), TraceError::Magic),
        (
            b"aprof trace 1\n\x09\0\0\0\0\x01\0\0\0-".as_slice(),
            TraceError::Record { at: 14 },
        ),
    ] {
        let mut events = Events::new(rt.alloc())?;
        let refused = read(rt.alloc(), bytes, &mut events).err();
        assert_eq!(rt; refused, Some(error), "{bytes:?}");
        assert!(rt; events.list().is_empty() == (error != TraceError::Short));
    }
    assert_eq!(rt; TraceError::Short.number(), Some(4));
    Ok(())
}
