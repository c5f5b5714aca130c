//! A trace of 49 bytes, replayed.
use guest_words::Finish;
use std::test::Fail;
use stored_traces::replay;

// The trace of three instructions of one thread, the last of which ends the process.
const TRACE: [u8; 49] =
    *b"aprof trace 1\n\x07\x01\0\0\0\x54\0\x01\0\x01\x01\0\0\0\x01\x01\0\0\0\x01\x01\0\0\0\x08\x01\0\0\0\x0a\0\0\0\0\0";

#[test]
fn a_trace_is_replayed(rt: HostRuntime) -> Result<(), Fail> {
    let replayed = replay::<u8>(rt.alloc(), &TRACE).ok().ok_or("refused")?;
    assert!(rt; replayed.whole && replayed.names.is_empty());
    assert_eq!(rt; replayed.finish, Finish::Exit { status: 0 });
    let counts = replayed.totals.counts;
    assert_eq!(rt; (counts.steps, counts.pending), (3, 0));
    assert!(rt; replay::<u8>(rt.alloc(), &TRACE[..48]).is_err());
    Ok(())
}
