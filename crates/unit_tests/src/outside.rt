//! Files and sinks, in memory and of the system, and failures of a reader and a writer in mid-stream.
use host_io::{
    DropSink, Files, LoadError, MemoryFiles, MemorySink, PutError, RealFiles, Sink, StoreError,
    StreamSink, load_opened,
};
use std::io;
use std::io::{ErrorKind, Read, Write};
use std::test::Fail;

#[test]
fn files_in_memory_are_loaded_and_stored(rt: HostRuntime) -> Result<(), Fail> {
    let alloc = rt.alloc();
    let mut files = MemoryFiles::new(alloc)?;
    files.add("a", b"one")?;
    assert_eq!(rt; files.load(alloc, "a", 3)?.as_slice(), b"one".as_slice());
    assert_eq!(rt; files.load(alloc, "a", 2).err(), Some(LoadError::TooLarge));
    assert_eq!(rt; files.load(alloc, "b", 3).err(), Some(LoadError::Failed));
    files.fail_at(3)?;
    files.fail_at(5)?;
    assert_eq!(rt; files.store("a", b"two"), Err(StoreError::Failed));
    files.store("b", b"two")?;
    assert_eq!(rt; files.load(alloc, "b", 3).err(), Some(LoadError::Failed));
    assert_eq!(rt; files.bytes("a"), Some(b"one".as_slice()));
    assert_eq!(rt; files.bytes("b"), Some(b"two".as_slice()));
    assert_eq!(rt; files.bytes("c"), None);
    Ok(())
}

#[test]
fn a_failing_put_leaves_the_first_half(rt: HostRuntime) -> Result<(), Fail> {
    let mut sink = MemorySink::new(rt.alloc())?;
    sink.fail_at(1)?;
    sink.put(b"one")?;
    assert_eq!(rt; sink.put(b"three"), Err(PutError::Failed));
    sink.put(b"!")?;
    assert_eq!(rt; sink.bytes(), b"oneth!".as_slice());
    Ok(())
}

#[test]
fn a_sink_may_drop_all(rt: HostRuntime) -> Result<(), Fail> {
    assert_eq!(rt; DropSink.put(b"one"), Ok(()));
    Ok(())
}

#[test]
fn files_of_the_system_keep_what_is_stored(rt: HostRuntime) {
    let mut files = RealFiles::new(&rt);
    assert_eq!(rt; files.store("kept", b"longer than seven"), Ok(()));
    assert_eq!(rt; files.store("kept", b"seven"), Ok(()));
    let kept = files.load(rt.alloc(), "kept", 5).expect(&rt, "a file");
    assert_eq!(rt; kept.as_slice(), b"seven".as_slice());
}

#[test]
fn files_of_the_system_refuse(rt: HostRuntime) {
    let mut files = RealFiles::new(&rt);
    assert_eq!(rt; files.store("kept", b"seven"), Ok(()));
    for (path, error) in [
        ("kept", LoadError::TooLarge),
        ("missing", LoadError::Failed),
    ] {
        let refused = files.load(rt.alloc(), path, 4).err();
        assert_eq!(rt; refused, Some(error), "{path}");
    }
    assert_eq!(rt;
        files.store("missing/kept", b"seven"),
        Err(StoreError::Failed)
    );
}

// Gives a byte, is interrupted, gives a byte, and fails from then on.
#[derive(Drop)]
struct BreakingReader {
    calls: u64,
}

impl Read for BreakingReader {
    fn read(&mut self, buf: &mut [u8]) -> io::Result<usize> {
        self.calls = self.calls.saturating_add(1);
        if self.calls == 2 {
            return Err(io::Error::from(ErrorKind::Interrupted));
        }
        if self.calls > 3 {
            return Err(io::Error::from(ErrorKind::PermissionDenied));
        }
        match buf.first_mut() {
            None => Ok(0),
            Some(first) => {
                *first = b'x';
                Ok(1)
            }
        }
    }
}

#[test]
fn a_read_that_fails_in_mid_stream_gives_no_bytes(rt: HostRuntime) -> Result<(), Fail> {
    let alloc = rt.alloc();
    let reader = BreakingReader { calls: 0 };
    assert_eq!(rt;
        load_opened(alloc, Ok(reader), 9).err(),
        Some(LoadError::Failed)
    );
    // It stops at the limit, so the failure is not met.
    let reader = BreakingReader { calls: 0 };
    assert_eq!(rt;
        load_opened(alloc, Ok(reader), 1).err(),
        Some(LoadError::TooLarge)
    );
    Ok(())
}

// Takes one byte a write, is interrupted at the second, and takes nothing from its limit on.
#[derive(Drop)]
struct NarrowWriter<'a> {
    bytes: &'a mut Vec<u8>,
    calls: u64,
    limit: usize,
}

impl Write for NarrowWriter<'_> {
    fn write(&mut self, buf: &[u8]) -> io::Result<usize> {
        self.calls = self.calls.saturating_add(1);
        if self.calls == 2 {
            return Err(io::Error::from(ErrorKind::Interrupted));
        }
        match buf.first() {
            Some(first) if self.bytes.len() < self.limit => {
                self.bytes.push(*first)?;
                Ok(1)
            }
            _ => Ok(0),
        }
    }

    fn flush(&mut self) -> io::Result<()> {
        Ok(())
    }
}

#[test]
fn a_write_that_takes_nothing_fails_the_put(rt: HostRuntime) -> Result<(), Fail> {
    let mut bytes = Vec::new(rt.alloc());
    {
        let mut sink = StreamSink::new(NarrowWriter {
            bytes: &mut bytes,
            calls: 0,
            limit: 4,
        });
        sink.put(b"abc")?;
        assert_eq!(rt; sink.put(b"de"), Err(PutError::Failed));
    }
    assert_eq!(rt; bytes.as_slice(), b"abcd".as_slice());
    Ok(())
}

// Holds what is written, until it is flushed.
#[derive(Drop)]
struct HoldingWriter<'a> {
    held: Vec<u8>,
    flushed: &'a mut Vec<u8>,
}

impl Write for HoldingWriter<'_> {
    fn write(&mut self, buf: &[u8]) -> io::Result<usize> {
        self.held.extend_from_slice(buf)?;
        Ok(buf.len())
    }

    fn flush(&mut self) -> io::Result<()> {
        self.flushed.extend_from_slice(&self.held)?;
        self.held.clear();
        Ok(())
    }
}

#[test]
fn each_put_is_flushed(rt: HostRuntime) -> Result<(), Fail> {
    let alloc = rt.alloc();
    let mut flushed = Vec::new(alloc);
    {
        let mut sink = StreamSink::new(HoldingWriter {
            held: Vec::new(alloc),
            flushed: &mut flushed,
        });
        sink.put(b"ab")?;
        sink.put(b"c")?;
    }
    assert_eq!(rt; flushed.as_slice(), b"abc".as_slice());
    Ok(())
}

// Takes one byte a write, and fails at the second write alone.
#[derive(Drop)]
struct FaultyWriter<'a> {
    bytes: &'a mut Vec<u8>,
    calls: u64,
}

impl Write for FaultyWriter<'_> {
    fn write(&mut self, buf: &[u8]) -> io::Result<usize> {
        self.calls = self.calls.saturating_add(1);
        if self.calls == 2 {
            return Err(io::Error::from(ErrorKind::PermissionDenied));
        }
        match buf.first() {
            Some(first) => {
                self.bytes.push(*first)?;
                Ok(1)
            }
            None => Ok(0),
        }
    }

    fn flush(&mut self) -> io::Result<()> {
        Ok(())
    }
}

#[test]
fn a_failed_put_writes_no_more(rt: HostRuntime) -> Result<(), Fail> {
    let mut bytes = Vec::new(rt.alloc());
    {
        let mut sink = StreamSink::new(FaultyWriter {
            bytes: &mut bytes,
            calls: 0,
        });
        assert_eq!(rt; sink.put(b"abc"), Err(PutError::Failed));
    }
    assert_eq!(rt; bytes.as_slice(), b"a".as_slice());
    Ok(())
}
