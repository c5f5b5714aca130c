//! Sixteen stamps of one width, and what is done to them lane by lane.
ghost use Rattle.std.specs.Prelude.{◌≡◌, ◌≤◌, ◌+◌, ◌%◌, ◌==◌, ℕ, List, length, map, nat_lt, replicate, count_by};
ghost use Rattle.std.specs.Simd.Lanes.{chunk, put_chunk, sel_l, zip2};

use stamps::Stamp;
use std::simd::prelude::*;

/// Sixteen stamps of one width. A contract sees them as the list of their numbers.
pub trait Block: Copy {
    type Lane: Stamp;

    /// The numbers of the lanes.
    ghost lanes: { Self → List ℕ };

    /// The block that begins at a place.
    fn load(stamps: &[Self::Lane], at: usize) -> Self
        requires { at + 16 ≤ length stamps.now }
        ensures { lanes result ≡ map Self.Lane.number_of (chunk at 16 stamps.now) };

    /// The sixteen marks from a place on, which are bytes at every width.
    fn load_marks(marks: &[u8], at: usize) -> Self
        requires { at + 16 ≤ length marks.now }
        ensures { lanes result ≡ chunk at 16 marks.now };

    /// Puts the block at a place.
    fn store(self, into: &mut [Self::Lane], at: usize)
        requires room { at + 16 ≤ length into.old }
        requires sixteen { length (lanes self) ≡ 16 }
        ensures { map Self.Lane.number_of into.new
            ≡ put_chunk at (map Self.Lane.number_of into.old) (lanes self) };

    /// One stamp in every lane.
    fn splat(stamp: Self::Lane) -> Self
        ensures { lanes result ≡ replicate 16 (Self.Lane.number_of stamp) };

    /// The sum of each two lanes, which wraps.
    fn sum(self, other: Self) -> Self
        ensures { lanes result ≡ zip2 (λ x y. (x + y) % (Self.Lane.MAX + 1)) (lanes self)
            (lanes other) };

    /// The lanes of x where those of self are below those of other, and else those of y.
    fn where_below(self, other: Self, x: Self, y: Self) -> Self
        ensures { lanes result ≡ sel_l (zip2 (λ p q. nat_lt p q) (lanes self) (lanes other))
            (lanes x) (lanes y) };

    /// The lanes of x where those of self and other are equal, and else those of y.
    fn where_equal(self, other: Self, x: Self, y: Self) -> Self
        ensures { lanes result ≡ sel_l (zip2 (λ p q. p == q) (lanes self) (lanes other)) (lanes x)
            (lanes y) };

    /// How many lanes of self are below those of other.
    fn count_below(self, other: Self) -> u32
        requires { length (lanes self) ≤ 16 }
        ensures { result ≡ count_by (λ b. b) (zip2 nat_lt (lanes self) (lanes other)) };

    /// How many lanes of self and other are equal.
    fn count_equal(self, other: Self) -> u32
        requires { length (lanes self) ≤ 16 }
        ensures { result ≡ count_by (λ b. b) (zip2 (λ p q. p == q) (lanes self) (lanes other)) };
}

impl Block for u8x16 {
    type Lane = u8;

    ghost lanes = { λ v. v };

    fn load(stamps: &[u8], at: usize) -> u8x16 {
        u8x16::from_slice(&stamps[at..])
    }

    fn load_marks(marks: &[u8], at: usize) -> u8x16 {
        u8x16::from_slice(&marks[at..])
    }

    fn store(self, into: &mut [u8], at: usize) {
        self.copy_to_slice(&mut into[at..]);
    }

    fn splat(stamp: u8) -> u8x16 {
        u8x16::splat(stamp)
    }

    fn sum(self, other: u8x16) -> u8x16 {
        self + other
    }

    fn where_below(self, other: u8x16, x: u8x16, y: u8x16) -> u8x16 {
        self.simd_lt(other).select(x, y)
    }

    fn where_equal(self, other: u8x16, x: u8x16, y: u8x16) -> u8x16 {
        self.simd_eq(other).select(x, y)
    }

    fn count_below(self, other: u8x16) -> u32 {
        self.simd_lt(other).to_bitmask().count_ones()
    }

    fn count_equal(self, other: u8x16) -> u32 {
        self.simd_eq(other).to_bitmask().count_ones()
    }
}

impl Block for u16x16 {
    type Lane = u16;

    ghost lanes = { λ v. v };

    fn load(stamps: &[u16], at: usize) -> u16x16 {
        u16x16::from_slice(&stamps[at..])
    }

    fn load_marks(marks: &[u8], at: usize) -> u16x16 {
        u8x16::from_slice(&marks[at..]).cast::<u16>()
    }

    fn store(self, into: &mut [u16], at: usize) {
        self.copy_to_slice(&mut into[at..]);
    }

    fn splat(stamp: u16) -> u16x16 {
        u16x16::splat(stamp)
    }

    fn sum(self, other: u16x16) -> u16x16 {
        self + other
    }

    fn where_below(self, other: u16x16, x: u16x16, y: u16x16) -> u16x16 {
        self.simd_lt(other).select(x, y)
    }

    fn where_equal(self, other: u16x16, x: u16x16, y: u16x16) -> u16x16 {
        self.simd_eq(other).select(x, y)
    }

    fn count_below(self, other: u16x16) -> u32 {
        self.simd_lt(other).to_bitmask().count_ones()
    }

    fn count_equal(self, other: u16x16) -> u32 {
        self.simd_eq(other).to_bitmask().count_ones()
    }
}

impl Block for u32x16 {
    type Lane = u32;

    ghost lanes = { λ v. v };

    fn load(stamps: &[u32], at: usize) -> u32x16 {
        u32x16::from_slice(&stamps[at..])
    }

    fn load_marks(marks: &[u8], at: usize) -> u32x16 {
        u8x16::from_slice(&marks[at..]).cast::<u32>()
    }

    fn store(self, into: &mut [u32], at: usize) {
        self.copy_to_slice(&mut into[at..]);
    }

    fn splat(stamp: u32) -> u32x16 {
        u32x16::splat(stamp)
    }

    fn sum(self, other: u32x16) -> u32x16 {
        self + other
    }

    fn where_below(self, other: u32x16, x: u32x16, y: u32x16) -> u32x16 {
        self.simd_lt(other).select(x, y)
    }

    fn where_equal(self, other: u32x16, x: u32x16, y: u32x16) -> u32x16 {
        self.simd_eq(other).select(x, y)
    }

    fn count_below(self, other: u32x16) -> u32 {
        self.simd_lt(other).to_bitmask().count_ones()
    }

    fn count_equal(self, other: u32x16) -> u32 {
        self.simd_eq(other).to_bitmask().count_ones()
    }
}
