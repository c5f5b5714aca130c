//! Reading the line of a point.
ghost use Rattle.std.specs.Prelude.{◌≡◌, ℕ, ◌+◌, ◌*◌, ◌≤◌, ◌<◌, ◌^◌, List, ◌++◌, ◌∷◌, ◌↔◌, codes, Option, Some, IfSome, IsSomeAnd, IsTrue};
ghost use Rattle.std.specs.Fmt.{decimal};
ghost use Rattle.std.specs.Option.{SomeIff};
ghost use Rattle.cost_points.specs.declared.point.Point.{Point};
ghost use Rattle.cost_points.specs.declared.point.Split.{Split};
ghost use Rattle.cost_points.specs.Valid.{IsPoint, IsSplit};
ghost use Rattle.profile_report.specs.LineForms.{point_line, split_words};
ghost use Rattle.profile_report.specs.Fits.{FitsPoint, FitsSplit};

use cost_points::{Point, Split};
use guest_words::{cut, first_number, wide_decimal_number};

// The sum of the parts, where it is one of 128 bits.
fn sum_of_parts(split: Split) -> Option<u128>
    ensures { SomeIff result (split.plain + split.thread + split.kernel < 2 ^ 128) (split.plain
        + split.thread + split.kernel) }
{
    split
        .plain
        .checked_add(split.thread)?
        .checked_add(split.kernel)
}

// Whether parts are those of as many sizes: they add up to them, and the plain read memory size lies between the plain
// part and all of them.
fn is_split(sizes: u128, split: Split) -> bool
    ensures { IsTrue result ↔ IsSplit sizes split }
{
    sum_of_parts(split) == Some(sizes) && split.plain <= split.bare && split.bare <= sizes
}

// Whether the sum is one of as many costs from the least up to the greatest.
fn has_costs(point: Point) -> bool
    ensures { IsTrue result ↔ ((1 ≤ point.calls) × (point.least ≤ point.most) × (point.calls
        * point.least ≤ point.sum) × (point.sum ≤ point.calls * point.most)) }
{
    let calls = u128::from(point.calls);
    1 <= point.calls
        && point.least <= point.most
        && calls * u128::from(point.least) <= point.sum
        && point.sum <= calls * u128::from(point.most)
}

// Whether the parts of a point, where they are told, are those of its sizes.
fn has_parts(point: Point) -> bool
    ensures { IsTrue result ↔ IfSome point.split (IsSplit (point.size * point.calls)) }
{
    let sizes = u128::from(point.size) * u128::from(point.calls);
    match point.split {
        Some(split) => is_split(sizes, split),
        None => true,
    }
}

// Whether a point can be one of activations.
fn is_point(point: Point) -> bool
    ensures { IsTrue result ↔ IsPoint point }
{
    has_costs(point) && has_parts(point)
}

// The number in 128 bits before the first space, and what stands behind that.
fn first_wide_number(words: &[u8]) -> Option<(u128, &[u8])>
    ensures found { IfSome result (λ x. words.now ≡ decimal x.0 ++ 32 ∷ x.1.now) }
    ensures only { (n : ℕ) (rest : List ℕ) → n < 2 ^ 128 → words.now ≡ decimal n ++ 32 ∷ rest
        → IsSomeAnd result (λ x. (x.0 ≡ n) × (x.1.now ≡ rest)) }
{
    let (word, rest) = cut(words, b' ')?;
    Some((wide_decimal_number(word)?, rest))
}

// The four parts of sizes.
fn split_of(words: &[u8]) -> Option<Split>
    ensures found { IfSome result (λ s. FitsSplit s × (codes " " ++ words.now
        ≡ split_words (Some s))) }
    ensures only { (s : Split) → FitsSplit s → codes " " ++ words.now ≡ split_words (Some s)
        → result ≡ Some s }
{
    let (plain, rest) = first_wide_number(words)?;
    let (thread, rest) = first_wide_number(rest)?;
    let (kernel, rest) = first_wide_number(rest)?;
    Some(Split {
        plain,
        thread,
        kernel,
        bare: wide_decimal_number(rest)?,
    })
}

// A sum of costs, and behind it the parts of sizes where they are told.
fn sum_and_split(words: &[u8]) -> Option<(u128, Option<Split>)>
    ensures found { IfSome result (λ x. IfSome x.1 FitsSplit × (words.now ≡ decimal x.0
        ++ split_words x.1)) }
    ensures only { (sum : ℕ) (split : Option Split) → sum < 2 ^ 128 → IfSome split FitsSplit
        → words.now ≡ decimal sum ++ split_words split → result ≡ Some (sum, split) }
{
    match cut(words, b' ') {
        Some((sum, parts)) => Some((wide_decimal_number(sum)?, Some(split_of(parts)?))),
        None => Some((wide_decimal_number(words)?, None)),
    }
}

/// A point: five numbers, and four more where the parts of its sizes are told.
pub fn point_of(line: &[u8]) -> Option<Point>
    ensures found { IfSome result (λ p. FitsPoint p × (line.now ≡ point_line p)) }
    ensures only { (p : Point) → FitsPoint p → line.now ≡ point_line p → result ≡ Some p }
{
    let (size, rest) = first_number(line)?;
    let (calls, rest) = first_number(rest)?;
    let (least, rest) = first_number(rest)?;
    let (most, rest) = first_number(rest)?;
    let (sum, split) = sum_and_split(rest)?;
    let point = Point {
        size,
        calls,
        least,
        most,
        sum,
        split,
    };
    if is_point(point) { Some(point) } else { None }
}
