//! A cache of one set and two ways, and which numbers are the form of a cache.
use cache_lines::{Cache, Shape};
use std::test::Fail;

#[test]
fn the_least_recently_used_line_is_dropped(rt: HostRuntime) -> Result<(), Fail> {
    let shape = Shape::new(1, 2, 64).ok_or("no shape")?;
    let mut cache = Cache::new(rt.alloc(), shape)?;
    // line, whether it misses
    let rows = [
        (1u32, true),
        (2, true),
        (1, false),
        (3, true),
        (2, true),
        (1, true),
    ];
    for (line, misses) in rows {
        assert_eq!(rt; cache.access(line), misses, "line {line}");
    }
    Ok(())
}

#[test]
fn shapes_have_their_forms(rt: HostRuntime) -> Result<(), Fail> {
    // sets, ways, bytes of a line, whether they are a shape
    let rows = [
        (3u32, 1u32, 64u32, false),
        (1, 1, 4, true),
        (65536, 64, 4096, true),
        (0, 1, 64, false),
        (131072, 1, 64, false),
        (1, 0, 64, false),
        (1, 65, 64, false),
        (1, 1, 2, false),
        (1, 1, 8192, false),
    ];
    for (sets, ways, line, taken) in rows {
        let shape = Shape::new(sets, ways, line);
        assert_eq!(rt; shape.is_some(), taken, "{sets} {ways} {line}");
    }
    Ok(())
}
