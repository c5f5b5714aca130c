//! The points of a deep recursion, of activations by size and by cause, and of two that are joined.
ghost use Rattle.std.specs.Prelude.{◌≡◌};
ghost use Rattle.trace_model.specs.Profile.{HasParts};

use cost_points::{Point, Split, Table};
use guest_words::{Addr, Tid};
use std::alloc::Global;
use std::process::Abort;
use trace_model::Done;

const NOTHING: Split = Split {
    plain: 0,
    thread: 0,
    kernel: 0,
    bare: 0,
};

// An activation of plain reads alone.
fn ended(entry: Addr, size: u64, cost: u64) -> Done
    ensures size { result.size ≡ size }
    ensures parts { HasParts result }
{
    Done {
        tid: Tid::FIRST,
        entry,
        size,
        cost,
        plain: size,
        thread: 0,
        kernel: 0,
        bare: size,
    }
}

fn add(rt: &impl Abort, table: &mut Table, ended: Done)
    requires { HasParts ended }
{
    assert!(rt; table.members() < 9_223_372_036_854_775_808);
    table.add(ended).expect(rt, "memory");
}

// The routine at the place has this entry and these points.
fn assert_routine(
    rt: &impl Abort,
    alloc: Global,
    table: &Table,
    place: usize,
    entry: Addr,
    points: &[Point],
) {
    assert!(rt; place < table.routines());
    let (found, list) = table.routine(alloc, place).expect(rt, "memory");
    assert_eq!(rt; (found, list.as_slice()), (entry, points));
}

// A routine that calls itself to a depth of 83, each call eight instructions dearer than the one inside it, and its caller.
#[test]
fn the_calls_of_a_deep_recursion_are_one_point(rt: HostRuntime) {
    let mut table = Table::new(rt.alloc()).expect(&rt, "memory");
    for depth in 0..83 {
        add(&rt, &mut table, ended(0x10068, 0, 7 + 8 * depth));
    }
    add(&rt, &mut table, ended(0x10054, 0, 668));
    assert_eq!(rt; table.members(), 84);
    assert_eq!(rt; table.routines(), 2);
    let whole = Point {
        size: 0,
        calls: 1,
        least: 668,
        most: 668,
        sum: 668,
        split: Some(NOTHING),
    };
    assert_routine(&rt, rt.alloc(), &table, 0, 0x10054, &[whole]);
    let deep = Point {
        size: 0,
        calls: 83,
        least: 7,
        most: 663,
        sum: 27805,
        split: Some(NOTHING),
    };
    assert_routine(&rt, rt.alloc(), &table, 1, 0x10068, &[deep]);
}

// Of three activations of size 2 one reads two words first, one a word first and one that another thread wrote last, and one
// two words that the kernel filled last, of which it had accessed one before.
#[test]
fn points_are_by_size(rt: HostRuntime) {
    let mut table = Table::new(rt.alloc()).expect(&rt, "memory");
    let threaded = Done {
        plain: 1,
        thread: 1,
        kernel: 0,
        bare: 1,
        ..ended(0x10068, 2, 3)
    };
    let filled = Done {
        plain: 0,
        thread: 0,
        kernel: 2,
        bare: 1,
        ..ended(0x10068, 2, 9)
    };
    add(&rt, &mut table, ended(0x10068, 2, 7));
    add(&rt, &mut table, ended(0x10068, 0, 5));
    add(&rt, &mut table, threaded);
    add(&rt, &mut table, filled);
    assert_eq!(rt; table.routines(), 1);
    let small = Point {
        size: 0,
        calls: 1,
        least: 5,
        most: 5,
        sum: 5,
        split: Some(NOTHING),
    };
    let large = Point {
        size: 2,
        calls: 3,
        least: 3,
        most: 9,
        sum: 19,
        split: Some(Split {
            plain: 3,
            thread: 1,
            kernel: 2,
            bare: 4,
        }),
    };
    assert_routine(&rt, rt.alloc(), &table, 0, 0x10068, &[small, large]);
}

// A point of two activations of size 2, of which one read two words that the kernel had filled, joins that of one which reads
// two words first.
#[test]
fn a_point_joins_another(rt: HostRuntime) {
    let mut table = Table::new(rt.alloc()).expect(&rt, "memory");
    add(&rt, &mut table, ended(0x10068, 2, 7));
    let more = Point {
        size: 2,
        calls: 2,
        least: 3,
        most: 9,
        sum: 12,
        split: Some(Split {
            plain: 1,
            thread: 1,
            kernel: 2,
            bare: 2,
        }),
    };
    assert_eq!(rt; table.members(), 1);
    table.add_point(0x10068, &more).expect(&rt, "memory");
    assert_eq!(rt; table.routines(), 1);
    let whole = Point {
        size: 2,
        calls: 3,
        least: 3,
        most: 9,
        sum: 19,
        split: Some(Split {
            plain: 3,
            thread: 1,
            kernel: 2,
            bare: 4,
        }),
    };
    assert_routine(&rt, rt.alloc(), &table, 0, 0x10068, &[whole]);
}
