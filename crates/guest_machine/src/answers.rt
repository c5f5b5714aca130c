//! What the kernel's answers do to the threads.
ghost use Rattle.std.specs.Prelude.{◌≡◌, ◌≤◌, ◌<◌, ◌+◌, ◌++◌, ℕ, true, length, is_some, All};
ghost use Rattle.guest_words.specs.ByThread.{numbers, value_of};
ghost use Rattle.rv_exec.specs.Registers.{Registers};
ghost use Rattle.guest_machine.specs.Machine.{registers_of};
ghost use Rattle.guest_machine.specs.Step.{harts_after, life_events, stepped_by};

use crate::Stepped;
use crate::hart::resume;
use crate::step_events::add_ends;
use guest_kernel::Answer;
use guest_words::limits::THREADS;
use guest_words::{ByThread, Tid};
use rv_exec::Cpu;
use trace_model::{Event, Events};

/// Starts, blocks or ends threads as the kernel answered the system call of one of them.
pub(crate) fn apply_answer(
    harts: &mut ByThread<Cpu>,
    tid: Tid,
    answer: Answer,
    events: &mut Events,
) -> Stepped
    requires lives { is_some (value_of harts.old.list tid) ≡ true }
    requires room { THREADS ≤ events.old.room }
    requires few { length harts.old.list ≤ THREADS }
    requires born { (child : ℕ) (cpu : Registers) → answer ≡ Answer.Born child cpu
        → length harts.old.list < THREADS }
    requires above { (child : ℕ) (cpu : Registers) → answer ≡ Answer.Born child cpu
        → All (λ n. n < child) (numbers harts.old.list) }
    requires spare { THREADS ≤ length harts.old.list + harts.old.room }
    ensures harts { harts.new.list ≡ harts_after answer harts.old.list tid
        (registers_of harts.old.list tid) }
    ensures events { events.new.list ≡ events.old.list ++ life_events answer harts.old.list tid }
    ensures outcome { result ≡ stepped_by answer }
    ensures spare { THREADS ≤ length harts.new.list + harts.new.room }
{
    match answer {
        Answer::Back { value } => {
            resume(harts, tid, value);
            Stepped::Went
        }
        Answer::Yield => {
            resume(harts, tid, 0);
            Stepped::Yielded
        }
        Answer::Block => {
            resume(harts, tid, 0);
            Stepped::Blocked
        }
        Answer::ThreadEnd => {
            harts.remove(tid);
            events.push(Event::End { tid });
            Stepped::Ended
        }
        Answer::ProcessEnd { status } => {
            add_ends(events, harts.list());
            harts.clear();
            Stepped::Finished { status }
        }
        Answer::Born {
            tid: child,
            child: cpu,
        } => {
            resume(harts, tid, child.number());
            harts.insert(child, cpu).unwrap();
            events.push(Event::Start {
                tid: child,
                entry: cpu.pc,
            });
            Stepped::Went
        }
    }
}
