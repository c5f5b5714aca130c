//! Slices of pseudo-random stamps, of lengths about a block's, against loops over one stamp at a time.
ghost use Rattle.std.specs.Prelude.{◌≡◌, ◌≤◌, ◌+◌, ◌*◌, ◌^◌, All, length, map, true};

use stamp_lanes::{Bulk, Lanes};
use stamps::Stamp;

const LENGTHS: [usize; 9] = [0, 1, 15, 16, 17, 63, 64, 65, 1024];

// The next number of a linear congruence.
fn next(number: u32) -> u32 {
    number.wrapping_mul(1_664_525).wrapping_add(1_013_904_223)
}

fn bytes(seed: u32, mask: u8) -> [u8; 1024] {
    let mut number = seed;
    let mut column = [0; 1024];
    for i in 0..1024 {
        number = next(number);
        column[i] = (number >> 24) as u8 & mask;
    }
    column
}

fn halves(seed: u32, mask: u16) -> [u16; 1024] {
    let mut number = seed;
    let mut column = [0; 1024];
    for i in 0..1024 {
        number = next(number);
        column[i] = (number >> 16) as u16 & mask;
    }
    column
}

fn words(seed: u32, mask: u32) -> [u32; 1024] {
    let mut number = seed;
    let mut column = [0; 1024];
    for i in 0..1024 {
        number = next(number);
        column[i] = number.rotate_right(8) & mask;
    }
    column
}

fn plain_extremes<S: Stamp>(stamps: &[S]) -> Option<(u32, u32)> {
    let mut found = None;
    for stamp in stamps {
        let n = stamp.number();
        found = match found {
            None => Some((n, n)),
            Some((least, greatest)) => Some((n.min(least), n.max(greatest))),
        };
    }
    found
}

fn finds_extremes<S: Lanes>(stamps: &[S]) -> bool {
    let found = match S::least_greatest(stamps) {
        None => None,
        Some((least, greatest)) => Some((least.number(), greatest.number())),
    };
    found == plain_extremes(stamps)
}

#[test]
fn extremes_are_the_plain_ones(rt: HostRuntime) {
    let (byte, half, word) = (bytes(1, 255), halves(1, u16::MAX), words(1, u32::MAX));
    for n in &LENGTHS {
        let n = (*n).min(1024);
        assert!(rt; finds_extremes(&byte[..n]), "{n} of 8 bits");
        assert!(rt; finds_extremes(&half[..n]), "{n} of 16 bits");
        assert!(rt; finds_extremes(&word[..n]), "{n} of 32 bits");
    }
}

fn plain_class<S: Stamp>(stamp: S, starts: &[S], below: u32) -> u32 {
    let mut class = below;
    for start in starts {
        if start.number() <= stamp.number() {
            class = class.wrapping_add(1);
        }
    }
    class
}

fn finds_classes<S: Lanes>(stamps: &[S], starts: &[S], into: &mut [S]) -> bool
    requires lengths { length stamps.now ≡ length into.old }
    requires room { 2 + length starts.now ≤ S.MAX }
{
    S::classes_into(stamps, starts, 2, into);
    for i in 0..stamps.len() {
        if into[i].number() != plain_class(stamps[i], starts, 2) {
            return false;
        }
    }
    true
}

#[test]
fn classes_are_the_plain_ones(rt: HostRuntime) {
    let (byte, half, word) = (bytes(2, 255), halves(2, u16::MAX), words(2, u32::MAX));
    for n in &LENGTHS {
        let n = (*n).min(1024);
        let (mut in_bytes, mut in_halves, mut in_words) = ([0; 1024], [0; 1024], [0; 1024]);
        assert!(rt;
            finds_classes(&byte[..n], &byte[20..25], &mut in_bytes[..n]),
            "{n} of 8 bits"
        );
        assert!(rt;
            finds_classes(&half[..n], &half[20..25], &mut in_halves[..n]),
            "{n} of 16 bits"
        );
        assert!(rt;
            finds_classes(&word[..n], &word[20..25], &mut in_words[..n]),
            "{n} of 32 bits"
        );
    }
}

fn plain_renewed<S: Stamp>(own: S, own_class: S, write: S, write_class: S) -> u32 {
    let first = own_class.number().wrapping_mul(3);
    let is_same = own_class.number() == write_class.number();
    if own.number() == 0 {
        0
    } else if is_same && own.number() > write.number() {
        first.wrapping_add(2)
    } else if is_same && own.number() == write.number() {
        first.wrapping_add(1)
    } else {
        first
    }
}

// Whether there are three stamps for each class.
fn are_few<S: Stamp>(classes: &[S]) -> bool
    ensures { result ≡ true → All (λ k. 3 * k + 2 ≤ S.MAX) (map S.number_of classes.now) }
{
    let most = u64::from(S::MAX);
    for class in classes {
        if 3 * u64::from(class.number()) + 2 > most {
            return false;
        }
    }
    true
}

fn renews<S: Lanes>(
    own: &[S],
    own_class: &[S],
    write: &[S],
    write_class: &[S],
    into: &mut [S],
) -> bool
    requires { (length own.now ≡ length into.old)
        × (length own_class.now ≡ length into.old)
        × (length write.now ≡ length into.old)
        × (length write_class.now ≡ length into.old) }
{
    if !are_few(own_class) {
        return false;
    }
    S::renew_into(own, own_class, write, write_class, into);
    for i in 0..own.len() {
        if into[i].number() != plain_renewed(own[i], own_class[i], write[i], write_class[i]) {
            return false;
        }
    }
    true
}

#[test]
fn renewals_are_the_plain_ones(rt: HostRuntime) {
    let byte = (bytes(4, 3), bytes(5, 3), bytes(6, 3), bytes(7, 3));
    let half = (halves(4, 3), halves(5, 3), halves(6, 3), halves(7, 3));
    let word = (words(4, 3), words(5, 3), words(6, 3), words(7, 3));
    for n in &LENGTHS {
        let n = (*n).min(1024);
        let (mut byte_stamps, mut half_stamps, mut word_stamps) = ([0; 1024], [0; 1024], [0; 1024]);
        assert!(rt;
            renews(
                &byte.0[..n],
                &byte.1[..n],
                &byte.2[..n],
                &byte.3[..n],
                &mut byte_stamps[..n]
            ),
            "{n} of 8 bits"
        );
        assert!(rt;
            renews(
                &half.0[..n],
                &half.1[..n],
                &half.2[..n],
                &half.3[..n],
                &mut half_stamps[..n]
            ),
            "{n} of 16 bits"
        );
        assert!(rt;
            renews(
                &word.0[..n],
                &word.1[..n],
                &word.2[..n],
                &word.3[..n],
                &mut word_stamps[..n]
            ),
            "{n} of 32 bits"
        );
    }
}

fn plain_read<S: Stamp>(own: S, write: S, mark: u8, start: S, counts: &mut Bulk) {
    if own.number() == 0 {
        counts.untouched = counts.untouched.wrapping_add(1);
        if write.number() == 0 {
            counts.plain = counts.plain.wrapping_add(1);
        }
    } else if own.number() < start.number() {
        counts.old = counts.old.wrapping_add(1);
    }
    if own.number() < write.number() {
        match mark {
            0 => counts.thread = counts.thread.wrapping_add(1),
            _ => counts.kernel = counts.kernel.wrapping_add(1),
        }
    }
}

fn reads<S: Lanes>(own: &[S], write: &[S], marks: &[u8], start: S, now: S, after: &mut [S]) -> bool
    requires lengths { (length own.now ≡ length after.old)
        × (length write.now ≡ length after.old)
        × (length marks.now ≡ length after.old) }
    requires few { length own.now ≤ 2 ^ 30 }
{
    let found = S::bulk_read(after, write, marks, start, now);
    let mut counts = Bulk {
        plain: 0,
        thread: 0,
        kernel: 0,
        untouched: 0,
        old: 0,
    };
    for i in 0..own.len() {
        plain_read(own[i], write[i], marks[i], start, &mut counts);
    }
    for i in 0..own.len() {
        let stamp = if counts.old == 0 { now } else { own[i] };
        if after[i].number() != stamp.number() {
            return false;
        }
    }
    found == counts
}

#[test]
fn reads_are_the_plain_ones(rt: HostRuntime) {
    let byte = (bytes(8, 3), bytes(9, 3), bytes(10, 1));
    let half = (halves(8, 3), halves(9, 3));
    let word = (words(8, 3), words(9, 3));
    for n in &LENGTHS {
        let n = (*n).min(1024);
        for start in 1..4 {
            let (mut byte_after, mut half_after, mut word_after) = (byte.0, half.0, word.0);
            assert!(rt;
                reads(
                    &byte.0[..n],
                    &byte.1[..n],
                    &byte.2[..n],
                    start as u8,
                    9,
                    &mut byte_after[..n]
                ),
                "{n} of 8 bits from {start}"
            );
            assert!(rt;
                reads(
                    &half.0[..n],
                    &half.1[..n],
                    &byte.2[..n],
                    start as u16,
                    9,
                    &mut half_after[..n]
                ),
                "{n} of 16 bits from {start}"
            );
            assert!(rt;
                reads(
                    &word.0[..n],
                    &word.1[..n],
                    &byte.2[..n],
                    start,
                    9,
                    &mut word_after[..n]
                ),
                "{n} of 32 bits from {start}"
            );
        }
    }
}

#[test]
fn classes_count_starts(rt: HostRuntime) {
    let mut into = [0; 4];
    u8::classes_into(&[0, 4, 5, 9], &[5, 9], 2, &mut into);
    assert_eq!(rt; into, [2, 2, 3, 4]);
}

#[test]
fn renewals_keep_the_order(rt: HostRuntime) {
    let mut into = [0; 4];
    u8::renew_into(&[0, 7, 8, 9], &[0, 2, 2, 2], &[8; 4], &[2; 4], &mut into);
    assert_eq!(rt; into, [0, 6, 7, 8]);
}

#[test]
fn an_old_stamp_keeps_all(rt: HostRuntime) {
    let mut own = [0, 0, 6, 9, 3];
    let counts = u8::bulk_read(&mut own, &[0, 4, 6, 2, 3], &[0; 5], 5, 10);
    assert_eq!(rt;
        counts,
        Bulk {
            plain: 1,
            thread: 1,
            kernel: 0,
            untouched: 2,
            old: 1
        }
    );
    assert_eq!(rt; own, [0, 0, 6, 9, 3]);
    let counts = u8::bulk_read(&mut own[..4], &[0, 4, 6, 2], &[0; 4], 5, 10);
    assert_eq!(rt;
        counts,
        Bulk {
            plain: 1,
            thread: 1,
            kernel: 0,
            untouched: 2,
            old: 0
        }
    );
    assert_eq!(rt; own, [10, 10, 10, 10, 3]);
}
