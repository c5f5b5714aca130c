//! Events that may come next, and events that may not.
use guest_words::{Tid, Word};
use std::alloc::AllocError;
use std::test::Fail;
use trace_model::Event;
use trace_order::Order;

// Takes the event if it may come next.
fn offer(order: &mut Order, e: Event) -> Result<bool, AllocError> {
    let may = order.may_follow(&e);
    if may {
        order.add(e)?;
    }
    Ok(may)
}

// Events are offered one after the other; with each stands whether it may come after those that were taken.
#[test]
fn each_event_is_taken_in_its_order(rt: HostRuntime) -> Result<(), Fail> {
    let (first, second) = (Tid::FIRST, Tid::new(2).expect(&rt, "a thread"));
    let third = Tid::new(3).expect(&rt, "a thread");
    let (word, last) = (Word::of(64), Word::of(u32::MAX));
    let (step, start) = (
        Event::Step { tid: first },
        Event::Start {
            tid: first,
            entry: 16,
        },
    );
    let write = Event::Write {
        tid: first,
        first: word,
        count: 1,
    };
    let other_write = Event::Write {
        tid: third,
        first: word,
        count: 1,
    };
    let mut order = Order::new(rt.alloc())?;
    for (e, may) in [
        (step, false),
        (start, true),
        (write, false),
        (step, true),
        (write, true),
        (
            Event::Write {
                tid: first,
                first: word,
                count: 0,
            },
            false,
        ),
        (
            Event::Write {
                tid: first,
                first: last,
                count: 1,
            },
            true,
        ),
        (
            Event::Write {
                tid: first,
                first: last,
                count: 2,
            },
            false,
        ),
        (
            Event::Start {
                tid: third,
                entry: 16,
            },
            true,
        ),
        (
            Event::Start {
                tid: second,
                entry: 16,
            },
            false,
        ),
        (
            Event::Start {
                tid: third,
                entry: 16,
            },
            false,
        ),
        (other_write, false),
        (Event::Step { tid: third }, true),
        (other_write, true),
        (write, false),
        (Event::End { tid: first }, true),
        (step, false),
        (Event::End { tid: first }, false),
        (
            Event::Ret {
                tid: third,
                target: 20,
            },
            true,
        ),
        (Event::End { tid: third }, true),
        (other_write, false),
    ] {
        assert_eq!(rt; offer(&mut order, e)?, may, "{e:?}");
    }
    Ok(())
}
