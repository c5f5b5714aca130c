//! A routine that is called in two ways: its numbers, and its places in the order of the text.
ghost use Rattle.std.specs.Prelude.{[], List, IfOk};
ghost use Rattle.trace_model.specs.declared.event_kinds.Event.{Event};
ghost use Rattle.context_tree.specs.Trees.{TreeStandsFor};
ghost use Rattle.shadow_core.specs.Profiling.{StandsFor as Stamps};

use context_tree::{ContextNumbers, Tree};
use cost_points::{Point, Split};
use guest_words::{Addr, Tid, Word};
use shadow_core::Profiler;
use std::alloc::Global;
use std::process::Abort;
use std::test::Fail;
use trace_model::{Done, Event};

fn number_of(
    rt: &impl Abort,
    numbers: &mut ContextNumbers,
    above: u32,
    entry: Addr,
) -> Result<u32, Fail> {
    assert!(rt; above as usize <= numbers.len());
    Ok(numbers.number_of(above, entry)?)
}

// A routine that is called in two ways has two contexts, numbered as they begin.
#[test]
fn two_ways_to_a_routine(rt: HostRuntime) -> Result<(), Fail> {
    let mut numbers = ContextNumbers::new(rt.alloc());
    for (above, entry, number) in [
        (0u32, 0x10054u32, 1u32),
        (1, 0x10070, 2),
        (1, 0x10068, 3),
        (3, 0x10070, 4),
        (1, 0x10070, 2),
    ] {
        assert_eq!(rt; number_of(&rt, &mut numbers, above, entry)?, number);
    }
    assert_eq!(rt; numbers.len(), 4);
    Ok(())
}

const TID: Tid = Tid::FIRST;

fn step() -> Event {
    Event::Step { tid: TID }
}

fn start(entry: Addr) -> Event {
    Event::Start { tid: TID, entry }
}

fn end() -> Event {
    Event::End { tid: TID }
}

fn ret(target: Addr) -> Event {
    Event::Ret { tid: TID, target }
}

fn read(at: Addr) -> Event {
    Event::Read {
        tid: TID,
        first: Word::of(at),
        count: 1,
    }
}

fn call(entry: Addr, back: Addr) -> Event {
    Event::Call {
        tid: TID,
        entry,
        back,
    }
}

// The profiler and the tree take the event, where it may come next: the tree with what the profiler says that it ends.
fn apply(
    profiler: &mut Profiler<u32>,
    tree: &mut Tree,
    done: &mut Vec<Done>,
    e: &Event,
) -> Result<(), Fail>
    requires { (past : List Event) × (Stamps 4294967295 profiler.old past
        × TreeStandsFor tree.old past) }
    ensures { IfOk result (λ _. (past : List Event)
        × (Stamps 4294967295 profiler.new past × TreeStandsFor tree.new past)) }
{
    if tree.may_follow(e) {
        done.clear();
        profiler.apply(*e, done)?;
        tree.apply(*e, done)?;
    }
    Ok(())
}

// The profiler and the tree take the events in turn, each where it may come next.
fn apply_each(
    profiler: &mut Profiler<u32>,
    tree: &mut Tree,
    done: &mut Vec<Done>,
    events: &[Event],
) -> Result<(), Fail>
    requires { (past : List Event) × (Stamps 4294967295 profiler.old past
        × TreeStandsFor tree.old past) }
    ensures { IfOk result (λ _. (past : List Event)
        × (Stamps 4294967295 profiler.new past × TreeStandsFor tree.new past)) }
{
    for e in events {
        apply(profiler, tree, done, e)?;
    }
    Ok(())
}

// The tree takes the events of a routine f and its caller that both call g, which reads a word. Each function here holds one
// value with a destructor where it may end early: the proof of one that holds three took five times as long.
fn grow_two_ways(alloc: Global, tree: &mut Tree) -> Result<(), Fail>
    requires { TreeStandsFor tree.old [] }
    ensures { IfOk result (λ _. (past : List Event) × TreeStandsFor tree.new past) }
{
    let events = [
        start(0x10054),
        step(),
        step(),
        call(0x10070, 0x1005c),
        step(),
        read(0x10400),
        step(),
        ret(0x1005c),
        step(),
        call(0x10068, 0x10060),
        step(),
        call(0x10070, 0x1006c),
        step(),
        read(0x10400),
        step(),
        ret(0x1006c),
        step(),
        ret(0x10060),
        step(),
        step(),
        end(),
    ];
    let mut profiler = Profiler::<u32>::new(alloc)?;
    let mut done = Vec::new(alloc);
    apply_each(&mut profiler, tree, &mut done, &events)
}

// Their tree.
fn two_ways(alloc: Global) -> Result<Tree, Fail> {
    let mut tree = Tree::new(alloc)?;
    grow_two_ways(alloc, &mut tree)?;
    Ok(tree)
}

// One activation that reads one word, at this cost.
fn point(cost: u64) -> Point {
    Point {
        size: 1,
        calls: 1,
        least: cost,
        most: cost,
        sum: u128::from(cost),
        split: Some(Split {
            plain: 1,
            thread: 0,
            kernel: 0,
            bare: 1,
        }),
    }
}

// A routine that is called in two ways is told at two places, after the context that calls it.
#[test]
fn contexts_in_the_order_of_the_text(rt: HostRuntime) -> Result<(), Fail> {
    let tree = two_ways(rt.alloc())?;
    assert_eq!(rt; tree.contexts(), 4);
    for (i, depth, entry, cost) in [
        (0usize, 0u32, 0x10054u32, 11u64),
        (1, 1, 0x10070, 2),
        (2, 1, 0x10068, 4),
        (3, 2, 0x10070, 2),
    ] {
        assert!(rt; i < tree.contexts());
        let (shown_depth, shown_entry, points) = tree.context(i)?;
        assert_eq!(rt; (shown_depth, shown_entry), (depth, entry));
        assert_eq!(rt; points.as_slice(), [point(cost)].as_slice());
    }
    Ok(())
}
