//! One set: its lines, the most recent first.
ghost use Rattle.std.specs.Prelude.{◌≡◌, ◌==◌, ◌+◌, ◌-◌, ◌≤◌, ◌++◌, ◌∷◌, not, length, take, drop};
ghost use Rattle.std.specs.List.{position};
ghost use Rattle.cache_lines.specs.Misses.{was_accessed};
ghost use Rattle.cache_lines.specs.Private.Recency.{touched};

// The place of the line, if it is one of them.
fn place_of(lines: &[u32], line: u32) -> Option<usize>
    ensures { result ≡ position (λ m. m == line) lines.now }
{
    lines.iter().position(|place| *place == line)
}

// Moves the first n - 1 lines down by one place, over the n-th, and writes a line in front of them.
fn write_first(places: &mut [u32], n: usize, line: u32)
    requires some { 1 ≤ n }
    requires within { n ≤ length places.old }
    ensures after { places.new ≡ line ∷ take (n - 1) places.old ++ drop n places.old }
    ensures len { length places.new ≡ length places.old }
{
    places[..n].rotate_right(1);
    places[0] = line;
}

/// An access of a line: it is the most recent one of its set from then on. The used places have the lines of the set, the
/// most recent first. Where the set is full and the line is not among them, the least recent one is dropped. Answers whether
/// it missed.
pub(crate) fn touch(places: &mut [u32], used: &mut u8, line: u32) -> bool
    requires some { 1 ≤ length places.old }
    requires few { length places.old ≤ 64 }
    requires inside { used.old ≤ length places.old }
    ensures missed { result ≡ not (was_accessed line (take used.old places.old)) }
    ensures after { take used.new places.new
        ≡ touched (length places.old) line (take used.old places.old) }
    ensures inside { used.new ≤ length places.old }
    ensures len { length places.new ≡ length places.old }
{
    let held = *used as usize;
    match place_of(&places[..held], line) {
        Some(place) => {
            write_first(places, place + 1, line);
            false
        }
        None => {
            let kept = (held + 1).min(places.len());
            write_first(places, kept, line);
            *used = kept as u8;
            true
        }
    }
}
