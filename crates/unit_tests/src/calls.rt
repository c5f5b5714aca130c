//! Jumps by the link registers, a return to no open call, and two threads whose calls are kept apart.
use call_tracker::{CallStacks, JumpKind, OpenCall, OpenCalls, kind};
use guest_words::Tid;
use rv_isa::{Instr, Reg};
use std::process::Abort;
use std::test::Fail;
use trace_model::Event;

fn jalr(rt: &impl Abort, rd: u8, base: u8) -> Instr {
    Instr::Jalr {
        rd: Reg::new(rd).expect(rt, "a register"),
        base: Reg::new(base).expect(rt, "a register"),
        offset: 0,
    }
}

// The table of the link registers, at x1, x5 and a register that is no link.
#[test]
fn jumps_go_by_the_link_registers(rt: HostRuntime) -> Result<(), Fail> {
    let rows = [
        (0, 6, JumpKind::Nothing),
        (0, 1, JumpKind::Pop),
        (0, 5, JumpKind::Pop),
        (1, 6, JumpKind::Push),
        (5, 6, JumpKind::Push),
        (1, 5, JumpKind::PopPush),
        (5, 1, JumpKind::PopPush),
        (1, 1, JumpKind::Push),
        (5, 5, JumpKind::Push),
    ];
    for (rd, base, wanted) in rows {
        assert_eq!(rt; kind(jalr(&rt, rd, base)), wanted, "jalr x{rd}, x{base}");
    }
    for (number, wanted) in [
        (0, JumpKind::Nothing),
        (1, JumpKind::Push),
        (5, JumpKind::Push),
    ] {
        let rd = Reg::new(number).expect(&rt, "a register");
        assert_eq!(rt; kind(Instr::Jal { rd, offset: 8 }), wanted, "jal x{number}");
    }
    assert_eq!(rt; kind(Instr::Ecall), JumpKind::Nothing);
    Ok(())
}

// Returns to an address that no open call has end nothing, also after such a call came and went, and another ends two.
#[test]
fn an_unmatched_return_ends_nothing(rt: HostRuntime) -> Result<(), Fail> {
    let call = |entry, back| OpenCall { entry, back };
    let mut calls = OpenCalls::new(rt.alloc())?;
    calls.push(call(0x10054, None))?;
    calls.push(call(0x10060, Some(0x10058)))?;
    calls.reserve()?;
    calls.push(call(0x1006c, Some(0x10064)))?;
    assert_eq!(rt; calls.pop_to(0x10068), 0);
    assert_eq!(rt; calls.pop_to(0x10068), 0);
    calls.push(call(0x10080, Some(0x10068)))?;
    assert_eq!(rt; calls.pop_to(0x10068), 1);
    assert_eq!(rt; calls.pop_to(0x10068), 0);
    assert_eq!(rt; calls.depth(), 3);
    assert_eq!(rt; calls.ending(0x10058), 2);
    assert_eq!(rt; calls.pop(), Some(call(0x1006c, Some(0x10064))));
    assert_eq!(rt; calls.pop_to(0x10058), 1);
    assert_eq!(rt; calls.pop_all(), 1);
    assert_eq!(rt; calls.depth(), 0);
    Ok(())
}

// Two threads begin, call, return and end: what each event ends, and what is open then.
#[test]
fn events_are_followed_by_thread(rt: HostRuntime) -> Result<(), Fail> {
    let (first, second) = (Tid::FIRST, Tid::new(2).unwrap());
    let mut stacks = CallStacks::new(rt.alloc());
    let root = OpenCall {
        entry: 0x100,
        back: None,
    };
    let inner = OpenCall {
        entry: 0x200,
        back: Some(0x104),
    };
    assert_eq!(rt;
        stacks.apply(Event::Start {
            tid: first,
            entry: 0x100
        })?,
        0
    );
    assert_eq!(rt; stacks.apply(Event::Step { tid: first })?, 0);
    assert_eq!(rt;
        stacks.apply(Event::Call {
            tid: first,
            entry: 0x200,
            back: 0x104
        })?,
        0
    );
    assert_eq!(rt;
        stacks.apply(Event::Start {
            tid: second,
            entry: 0x300
        })?,
        0
    );
    assert_eq!(rt; stacks.pending(), 3);
    assert_eq!(rt; stacks.top(first), Some(inner));
    assert_eq!(rt;
        stacks.apply(Event::Ret {
            tid: first,
            target: 0x104
        })?,
        1
    );
    assert_eq!(rt; stacks.top(first), Some(root));
    assert_eq!(rt; stacks.apply(Event::End { tid: second })?, 1);
    assert_eq!(rt; stacks.pending(), 1);
    assert_eq!(rt; stacks.top(second), None);
    Ok(())
}
