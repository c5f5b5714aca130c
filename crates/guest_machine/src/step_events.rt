//! The events of a step.
ghost use Rattle.std.specs.Prelude.{◌≡◌, ◌≤◌, ◌+◌, ◌++◌, ◌∷◌, length, map};
ghost use Rattle.trace_model.specs.declared.event_kinds.Event.TheVariants.{End, Step};
ghost use Rattle.guest_machine.specs.Step.{access_events, jump_events};

use call_tracker::JumpKind;
use guest_words::{Addr, Tid};
use rv_exec::{Access, Cpu};
use trace_model::{Event, Events};

/// Adds the step of an instruction and its accesses.
#[inline(always)]
pub(crate) fn add_step(events: &mut Events, tid: Tid, access: Access)
    requires { 1 + length (access_events tid access) ≤ events.old.room }
    ensures list { events.new.list ≡ events.old.list ++ Step tid ∷ access_events tid access }
    ensures room { events.old.room ≤ events.new.room + (1 + length (access_events tid access)) }
{
    match access {
        Access::Nothing => events.push(Event::Step { tid }),
        Access::Read { first, count } => {
            events.push(Event::Step { tid });
            events.push(Event::Read { tid, first, count });
        }
        Access::Write { first, count } => {
            events.push(Event::Step { tid });
            events.push(Event::Write { tid, first, count });
        }
        Access::Both { word } => {
            events.push(Event::Step { tid });
            events.push(Event::Read {
                tid,
                first: word,
                count: 1,
            });
            events.push(Event::Write {
                tid,
                first: word,
                count: 1,
            });
        }
    }
}

/// Adds what a jump to a target ends and begins.
#[inline(always)]
pub(crate) fn add_jump(events: &mut Events, tid: Tid, kind: JumpKind, target: Addr, back: Addr)
    requires { length (jump_events kind tid target back) ≤ events.old.room }
    ensures { events.new.list ≡ events.old.list ++ jump_events kind tid target back }
{
    let call = Event::Call {
        tid,
        entry: target,
        back,
    };
    match kind {
        JumpKind::Nothing => {}
        JumpKind::Push => events.push(call),
        JumpKind::Pop => events.push(Event::Ret { tid, target }),
        JumpKind::PopPush => {
            events.push(Event::Ret { tid, target });
            events.push(call);
        }
    }
}

/// Adds the end of each thread.
pub(crate) fn add_ends(events: &mut Events, harts: &[(Tid, Cpu)])
    requires { length harts.now ≤ events.old.room }
    ensures { events.new.list ≡ events.old.list ++ map (λ h. End h.0) harts.now }
{
    for hart in harts {
        events.push(Event::End { tid: hart.0 });
    }
}
