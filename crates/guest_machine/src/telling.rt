//! What is told of an instruction that went, and how an observer is told.
ghost use Rattle.std.specs.Prelude.{◌≡◌, ◌≤◌, ◌++◌, ◌∷◌, [], ℕ, List, None, IfOk};
ghost use Rattle.trace_model.specs.declared.event_kinds.Event.TheVariants.{Call, Read, Ret, Step, Write};
ghost use Rattle.trace_model.specs.EventList.{EventList};
ghost use Rattle.trace_model.specs.Observing.{MayTakeAfter, MayTakeAll, ObservesAfter, ObservesAll, result_of};
ghost use Rattle.call_tracker.specs.Links.{kind_of};
ghost use Rattle.guest_machine.specs.declared.stepped.Stepped.TheVariants.{Went};
ghost use Rattle.guest_machine.specs.Kept.{Parts, out_of};
ghost use Rattle.guest_machine.specs.Step.{access_events, jump_events};
ghost use Rattle.guest_machine.specs.Told.{IsInstruction, IsQuiet, done_by, stepped_of, steps_of, told};
ghost use Rattle.guest_machine.specs.Private.Telling.{IsAlone};

use crate::Advanced;
use call_tracker::{JumpKind, kind};
use guest_words::{Addr, Tid, Word};
use rv_exec::Access;
use rv_isa::Instr;
use std::alloc::AllocError;
use trace_model::{Answer, Event, Observed, Observer};

/// What is told of an instruction that went.
#[inline(always)]
pub(crate) fn told(instruction: &Instr, access: Access, target: Addr, back: Addr) -> Advanced
    requires alone { IsAlone access (kind_of instruction.now) }
    ensures events { (tid : ℕ) → told tid result
        ≡ Step tid ∷ (access_events tid access
        ++ jump_events (kind_of instruction.now) tid target back) }
    ensures stepped { stepped_of result ≡ Went }
    ensures instruction { IsInstruction result }
    ensures quiet { (new : Parts) (events : EventList) → out_of new ≡ None
        → IsQuiet result new events events }
{
    match access {
        Access::Nothing => match kind(*instruction) {
            JumpKind::Nothing => Advanced::Ran,
            jump => Advanced::Jumped { jump, target, back },
        },
        Access::Read { .. } => Advanced::Accessed { access },
        Access::Write { .. } => Advanced::Accessed { access },
        Access::Both { .. } => Advanced::Accessed { access },
    }
}

// Hands out two events.
#[inline(always)]
fn hand_two<W: Observer>(
    first: Event,
    second: Event,
    observer: &mut W,
) -> Result<Observed, AllocError>
    requires { MayTakeAll W.stands (W.fits observer.old) observer.old (first ∷ second ∷ []) }
    ensures observed { IfOk result (ObservesAll W.stands (W.fits observer.old)
        (first ∷ second ∷ []) observer.old observer.new) }
    ensures same { W.fits observer.new ≡ W.fits observer.old }
{
    match observer.observe(first)? {
        Observed::Taken => observer.observe(second),
        Observed::Refused => Ok(Observed::Refused),
    }
}

// Hands out `steps` steps of a thread, the last of which did nothing beside.
#[inline(never)]
fn observe_nothing<W: Observer>(
    tid: Tid,
    steps: u64,
    observer: &mut W,
) -> Result<Observed, AllocError>
    requires some { 1 ≤ steps }
    requires next { MayTakeAll W.stands (W.fits observer.old) observer.old
        (steps_of tid steps ++ []) }
    ensures observed { IfOk result (ObservesAll W.stands (W.fits observer.old)
        (steps_of tid steps ++ []) observer.old observer.new) }
    ensures same { W.fits observer.new ≡ W.fits observer.old }
{
    observer.observe_steps(tid, steps)?;
    Ok(Observed::Taken)
}

// Hands out `steps` steps of a thread, and an event of the last.
#[inline(always)]
fn observe_one<W: Observer>(
    tid: Tid,
    steps: u64,
    e: Event,
    observer: &mut W,
) -> Result<Observed, AllocError>
    requires some { 1 ≤ steps }
    requires next { MayTakeAll W.stands (W.fits observer.old) observer.old
        (steps_of tid steps ++ e ∷ []) }
    ensures observed { IfOk result (ObservesAll W.stands (W.fits observer.old)
        (steps_of tid steps ++ e ∷ []) observer.old observer.new) }
    ensures same { W.fits observer.new ≡ W.fits observer.old }
{
    observer.observe_after(tid, steps, e)
}

// Hands out `steps` steps of a thread, and two events of the last.
#[inline(always)]
fn observe_two<W: Observer>(
    tid: Tid,
    steps: u64,
    first: Event,
    second: Event,
    observer: &mut W,
) -> Result<Observed, AllocError>
    requires some { 1 ≤ steps }
    requires next { MayTakeAll W.stands (W.fits observer.old) observer.old
        (steps_of tid steps ++ first ∷ second ∷ []) }
    ensures observed { IfOk result (ObservesAll W.stands (W.fits observer.old)
        (steps_of tid steps ++ first ∷ second ∷ []) observer.old observer.new) }
    ensures same { W.fits observer.new ≡ W.fits observer.old }
{
    observer.observe_steps(tid, steps)?;
    hand_two(first, second, observer)
}

// Hands out `steps` steps of a thread, the last of which read these words.
#[inline(never)]
fn observe_read<W: Observer>(
    tid: Tid,
    steps: u64,
    first: Word,
    count: u32,
    observer: &mut W,
) -> Result<Observed, AllocError>
    requires some { 1 ≤ steps }
    requires next { MayTakeAll W.stands (W.fits observer.old) observer.old
        (steps_of tid steps ++ Read tid first count ∷ []) }
    ensures observed { IfOk result (ObservesAll W.stands (W.fits observer.old)
        (steps_of tid steps ++ Read tid first count ∷ []) observer.old observer.new) }
    ensures same { W.fits observer.new ≡ W.fits observer.old }
{
    observe_one(tid, steps, Event::Read { tid, first, count }, observer)
}

/// Hands out `steps` steps of a thread, the last of which read one word. Each kind of event that most programs have most has a
/// function of its own, which stands apart, so that the code of the loop over known instructions is short. Its answer is one
/// number.
#[inline(never)]
pub(crate) fn tell_word_read<W: Observer>(
    observer: &mut W,
    tid: Tid,
    steps: u64,
    first: Word,
) -> Answer
    requires some { 1 ≤ steps }
    requires next { MayTakeAll W.stands (W.fits observer.old) observer.old
        (steps_of tid steps ++ Read tid first 1 ∷ []) }
    ensures observed { IfOk (result_of result) (ObservesAll W.stands (W.fits observer.old)
        (steps_of tid steps ++ Read tid first 1 ∷ []) observer.old observer.new) }
    ensures same { W.fits observer.new ≡ W.fits observer.old }
{
    observer.observe_word_read(tid, steps, first)
}

/// Hands out `steps` steps of a thread, the last of which read these words, mostly one.
#[inline(always)]
pub(crate) fn observe_words_read<W: Observer>(
    observer: &mut W,
    tid: Tid,
    steps: u64,
    first: Word,
    count: u32,
) -> Answer
    requires may { MayTakeAfter W.stands (W.fits observer.old) observer.old tid steps (Read tid first count) }
    requires some { 1 ≤ steps }
    ensures observed { IfOk (result_of result) (ObservesAfter W.stands (W.fits observer.old) tid steps (Read tid first count) observer.old observer.new) }
    ensures same { W.fits observer.new ≡ W.fits observer.old }
{
    if count == 1 {
        observer.observe_word_read(tid, steps, first)
    } else {
        Answer::of(observer.observe_after(tid, steps, Event::Read { tid, first, count }))
    }
}

/// Hands out `steps` steps of a thread, the last of which wrote these words, mostly one.
#[inline(always)]
pub(crate) fn observe_words_written<W: Observer>(
    observer: &mut W,
    tid: Tid,
    steps: u64,
    first: Word,
    count: u32,
) -> Answer
    requires may { MayTakeAfter W.stands (W.fits observer.old) observer.old tid steps (Write tid first count) }
    requires some { 1 ≤ steps }
    ensures observed { IfOk (result_of result) (ObservesAfter W.stands (W.fits observer.old) tid steps (Write tid first count) observer.old observer.new) }
    ensures same { W.fits observer.new ≡ W.fits observer.old }
{
    if count == 1 {
        observer.observe_word_written(tid, steps, first)
    } else {
        Answer::of(observer.observe_after(tid, steps, Event::Write { tid, first, count }))
    }
}

// Hands out `steps` steps of a thread, the last of which wrote these words.
#[inline(never)]
fn observe_write<W: Observer>(
    tid: Tid,
    steps: u64,
    first: Word,
    count: u32,
    observer: &mut W,
) -> Result<Observed, AllocError>
    requires some { 1 ≤ steps }
    requires next { MayTakeAll W.stands (W.fits observer.old) observer.old
        (steps_of tid steps ++ Write tid first count ∷ []) }
    ensures observed { IfOk result (ObservesAll W.stands (W.fits observer.old)
        (steps_of tid steps ++ Write tid first count ∷ []) observer.old observer.new) }
    ensures same { W.fits observer.new ≡ W.fits observer.old }
{
    observe_one(tid, steps, Event::Write { tid, first, count }, observer)
}

/// Hands out `steps` steps of a thread, the last of which wrote one word.
#[inline(never)]
pub(crate) fn tell_word_written<W: Observer>(
    observer: &mut W,
    tid: Tid,
    steps: u64,
    first: Word,
) -> Answer
    requires some { 1 ≤ steps }
    requires next { MayTakeAll W.stands (W.fits observer.old) observer.old
        (steps_of tid steps ++ Write tid first 1 ∷ []) }
    ensures observed { IfOk (result_of result) (ObservesAll W.stands (W.fits observer.old)
        (steps_of tid steps ++ Write tid first 1 ∷ []) observer.old observer.new) }
    ensures same { W.fits observer.new ≡ W.fits observer.old }
{
    observer.observe_word_written(tid, steps, first)
}

// Hands out `steps` steps of a thread, the last of which read this word and then wrote it.
#[inline(never)]
fn observe_both<W: Observer>(
    tid: Tid,
    steps: u64,
    word: Word,
    observer: &mut W,
) -> Result<Observed, AllocError>
    requires some { 1 ≤ steps }
    requires next { MayTakeAll W.stands (W.fits observer.old) observer.old
        (steps_of tid steps ++ Read tid word 1 ∷ Write tid word 1 ∷ []) }
    ensures observed { IfOk result (ObservesAll W.stands (W.fits observer.old)
        (steps_of tid steps ++ Read tid word 1 ∷ Write tid word 1 ∷ []) observer.old observer.new) }
    ensures same { W.fits observer.new ≡ W.fits observer.old }
{
    let first = word;
    let count = 1;
    let read = Event::Read { tid, first, count };
    observe_two(
        tid,
        steps,
        read,
        Event::Write { tid, first, count },
        observer,
    )
}

// Hands out `steps` steps of a thread, the last of which is a call.
#[inline(never)]
fn tell_call<W: Observer>(observer: &mut W, tid: Tid, steps: u64, entry: Addr, back: Addr) -> Answer
    requires some { 1 ≤ steps }
    requires next { MayTakeAll W.stands (W.fits observer.old) observer.old
        (steps_of tid steps ++ Call tid entry back ∷ []) }
    ensures observed { IfOk (result_of result) (ObservesAll W.stands (W.fits observer.old)
        (steps_of tid steps ++ Call tid entry back ∷ []) observer.old observer.new) }
    ensures same { W.fits observer.new ≡ W.fits observer.old }
{
    observer.observe_call(tid, steps, entry, back)
}

// Hands out `steps` steps of a thread, the last of which is a return.
#[inline(never)]
fn tell_return<W: Observer>(observer: &mut W, tid: Tid, steps: u64, target: Addr) -> Answer
    requires some { 1 ≤ steps }
    requires next { MayTakeAll W.stands (W.fits observer.old) observer.old
        (steps_of tid steps ++ Ret tid target ∷ []) }
    ensures observed { IfOk (result_of result) (ObservesAll W.stands (W.fits observer.old)
        (steps_of tid steps ++ Ret tid target ∷ []) observer.old observer.new) }
    ensures same { W.fits observer.new ≡ W.fits observer.old }
{
    observer.observe_return(tid, steps, target)
}

// Hands out `steps` steps of a thread, the last of which returns and then calls.
#[inline(never)]
fn observe_return_and_call<W: Observer>(
    tid: Tid,
    steps: u64,
    target: Addr,
    back: Addr,
    observer: &mut W,
) -> Result<Observed, AllocError>
    requires some { 1 ≤ steps }
    requires next { MayTakeAll W.stands (W.fits observer.old) observer.old
        (steps_of tid steps ++ Ret tid target ∷ Call tid target back ∷ []) }
    ensures observed { IfOk result (ObservesAll W.stands (W.fits observer.old)
        (steps_of tid steps ++ Ret tid target ∷ Call tid target back ∷ []) observer.old observer.new) }
    ensures same { W.fits observer.new ≡ W.fits observer.old }
{
    let entry = target;
    let call = Event::Call { tid, entry, back };
    observe_two(tid, steps, Event::Ret { tid, target }, call, observer)
}

// Hands out `steps` steps of a thread, and the accesses of the last.
#[inline(always)]
fn observe_access<W: Observer>(
    tid: Tid,
    steps: u64,
    access: Access,
    observer: &mut W,
) -> Result<Observed, AllocError>
    requires some { 1 ≤ steps }
    requires next { MayTakeAll W.stands (W.fits observer.old) observer.old
        (steps_of tid steps ++ access_events tid access) }
    ensures observed { IfOk result (ObservesAll W.stands (W.fits observer.old)
        (steps_of tid steps ++ access_events tid access) observer.old observer.new) }
    ensures same { W.fits observer.new ≡ W.fits observer.old }
{
    match access {
        Access::Nothing => observe_nothing(tid, steps, observer),
        Access::Read { first, count } => observe_read(tid, steps, first, count, observer),
        Access::Write { first, count } => observe_write(tid, steps, first, count, observer),
        Access::Both { word } => observe_both(tid, steps, word, observer),
    }
}

/// Hands out `steps` steps of a thread, and the calls and the returns of the last.
#[inline(always)]
pub(crate) fn observe_jump<W: Observer>(
    tid: Tid,
    steps: u64,
    jump: JumpKind,
    target: Addr,
    back: Addr,
    observer: &mut W,
) -> Result<Observed, AllocError>
    requires some { 1 ≤ steps }
    requires next { MayTakeAll W.stands (W.fits observer.old) observer.old
        (steps_of tid steps ++ jump_events jump tid target back) }
    ensures observed { IfOk result (ObservesAll W.stands (W.fits observer.old)
        (steps_of tid steps ++ jump_events jump tid target back) observer.old observer.new) }
    ensures same { W.fits observer.new ≡ W.fits observer.old }
{
    match jump {
        JumpKind::Nothing => observe_nothing(tid, steps, observer),
        JumpKind::Push => tell_call(observer, tid, steps, target, back).result(),
        JumpKind::Pop => tell_return(observer, tid, steps, target).result(),
        JumpKind::PopPush => observe_return_and_call(tid, steps, target, back, observer),
    }
}

/// Hands out `steps` steps of a thread that ran instructions, and then what the last of them did besides.
#[inline(always)]
pub fn observe_told<W: Observer>(
    tid: Tid,
    steps: u64,
    advanced: Advanced,
    observer: &mut W,
) -> Result<Observed, AllocError>
    requires instruction { IsInstruction advanced }
    requires some { 1 ≤ steps }
    requires next { MayTakeAll W.stands (W.fits observer.old) observer.old
        (steps_of tid steps ++ done_by tid advanced) }
    ensures observed { IfOk result (ObservesAll W.stands (W.fits observer.old)
        (steps_of tid steps ++ done_by tid advanced) observer.old observer.new) }
    ensures same { W.fits observer.new ≡ W.fits observer.old }
{
    match advanced {
        Advanced::Ran => observe_nothing(tid, steps, observer),
        Advanced::Accessed { access } => observe_access(tid, steps, access, observer),
        Advanced::Jumped { jump, target, back } => {
            observe_jump(tid, steps, jump, target, back, observer)
        }
        Advanced::Other { .. } => unreachable!(),
    }
}
