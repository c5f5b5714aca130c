//! Deadlines of four threads at two times, and one that is taken back.
ghost use Rattle.std.specs.Prelude.{◌≤◌, ◌<◌, ◌+◌, length};
ghost use Rattle.guest_words.specs.declared.limits.TheConstants.{THREADS};

use guest_words::Tid;
use std::test::Fail;
use virtual_clock::Deadlines;

// A deadline of a thread that has none.
fn set(deadlines: &mut Deadlines, number: u32, at: u64, answer: u32)
    requires { length deadlines.old < THREADS }
    ensures { length deadlines.new ≤ length deadlines.old + 1 }
{
    if let Some(tid) = Tid::new(number) {
        if !deadlines.has(tid) {
            deadlines.set(tid, at, answer);
        }
    }
}

#[test]
fn the_least_time_and_then_the_least_thread_is_due(rt: HostRuntime) -> Result<(), Fail> {
    let mut deadlines = Deadlines::new(rt.alloc())?;
    set(&mut deadlines, 4, 70, 1);
    set(&mut deadlines, 9, 50, 2);
    set(&mut deadlines, 3, 70, 3);
    set(&mut deadlines, 7, 50, 4);
    let rows = [
        (49u64, Some(50u64), None),
        (50, Some(50), Some((7u32, 4u32))),
        (60, Some(50), Some((9, 2))),
        (60, Some(70), None),
        (70, Some(70), Some((3, 3))),
        (70, Some(70), Some((4, 1))),
        (70, None, None),
    ];
    for (now, earliest, due) in rows {
        assert_eq!(rt; deadlines.earliest(), earliest, "at {now}");
        let seen = deadlines
            .due(now)
            .map(|(tid, answer)| (tid.number(), answer));
        assert_eq!(rt; seen, due, "at {now}");
    }
    Ok(())
}

#[test]
fn a_deadline_is_forgotten(rt: HostRuntime) {
    let (one, two) = (Tid::FIRST, Tid::new(2).expect(&rt, "a thread"));
    let mut deadlines = Deadlines::new(rt.alloc()).expect(&rt, "memory");
    set(&mut deadlines, 1, 5, 6);
    assert!(rt; deadlines.has(one) && !deadlines.has(two));
    deadlines.forget(two);
    assert_eq!(rt; deadlines.earliest(), Some(5));
    deadlines.forget(one);
    assert_eq!(rt; deadlines.earliest(), None);
}
