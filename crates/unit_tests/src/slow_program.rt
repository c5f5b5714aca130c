//! The examples: two loads of one word, and a word that another thread and the kernel write.
ghost use Rattle.std.specs.Prelude.{◌≡◌};
ghost use Rattle.trace_model.specs.declared.event_kinds.Event.TheVariants.{Read, Start, Step};

use guest_words::{Addr, Tid, Word};
use trace_model::{Done, Event, Events, slow_done};

fn start(tid: Tid, entry: Addr) -> Event
    ensures { result ≡ Start tid entry }
{
    Event::Start { tid, entry }
}

fn step(tid: Tid) -> Event
    ensures { result ≡ Step tid }
{
    Event::Step { tid }
}

// A read of words from the byte address 0x10400 on.
fn read(tid: Tid, count: u32) -> Event
    ensures { result ≡ Read tid 16640 count }
{
    Event::Read {
        tid,
        first: Word::of(0x10400),
        count,
    }
}

// Two loads of one word count once in the routine and once in its caller.
#[test]
fn a_repeated_read_counts_once(rt: HostRuntime) {
    let t = Tid::FIRST;
    let h = [
        start(t, 0x10054),
        step(t),
        step(t),
        Event::Call {
            tid: t,
            entry: 0x10064,
            back: 0x1005c,
        },
        step(t),
        read(t, 1),
        step(t),
        read(t, 1),
        step(t),
        Event::Ret {
            tid: t,
            target: 0x1005c,
        },
        step(t),
        step(t),
        Event::End { tid: t },
    ];
    let done = slow_done(rt.alloc(), &h).expect(&rt, "memory");
    let routine = Done {
        tid: t,
        entry: 0x10064,
        size: 1,
        cost: 3,
        plain: 1,
        thread: 0,
        kernel: 0,
        bare: 1,
    };
    let root = Done {
        entry: 0x10054,
        cost: 7,
        ..routine
    };
    assert_eq!(rt; done.as_slice(), [routine, root].as_slice());
}

// A fill and another thread's store are seen; a return that no call awaits ends nothing.
#[test]
fn foreign_writes_and_fills_count_again(rt: HostRuntime) {
    let t = Tid::FIRST;
    let other = Tid::new(2).expect(&rt, "a thread");
    let first = Word::of(0x10400);
    let h = [
        start(t, 16),
        step(t),
        start(other, 20),
        step(t),
        read(t, 2),
        step(other),
        Event::Write {
            tid: other,
            first,
            count: 1,
        },
        step(t),
        read(t, 2),
        step(t),
        Event::Ret { tid: t, target: 24 },
        step(t),
        Event::Fill { first, count: 2 },
        step(t),
        read(t, 2),
        step(t),
        Event::End { tid: t },
    ];
    let done = slow_done(rt.alloc(), &h).expect(&rt, "memory");
    assert_eq!(rt; done.len(), 1);
    assert_eq!(rt;
        done[0],
        Done {
            tid: t,
            entry: 16,
            size: 5,
            cost: 7,
            plain: 2,
            thread: 1,
            kernel: 2,
            bare: 2,
        }
    );
}

#[test]
fn events_are_pushed_into_room(rt: HostRuntime) {
    let t = Tid::FIRST;
    let mut events = Events::new(rt.alloc()).expect(&rt, "memory");
    events.reserve(2).expect(&rt, "memory");
    let room = events.room();
    assert!(rt; room >= 2);
    events.push(start(t, 16));
    events.push(step(t));
    assert_eq!(rt; events.list(), [start(t, 16), step(t)].as_slice());
    assert!(rt; events.room() >= room - 2);
    events.clear();
    assert_eq!(rt; events.list().len(), 0);
    assert!(rt; events.room() >= room);
}
