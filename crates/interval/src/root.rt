// Square roots in whole numbers, for every u64.
ghost use Rattle.interval.specs.Root.{IsRoot, NotBelow, RootEnds};

use crate::Interval;

// A guess not below the root: Newton's step from a power of two whose square is above x, for which the quotient is a shift.
fn first_guess(x: u64) -> u64
    ensures { NotBelow x result }
{
    let k = (65 - x.leading_zeros()) / 2;
    ((1u64 << k) + (x >> k)) / 2
}

// The greatest r with r · r not above x, by Newton's steps: while the guess is above the root, the mean of it and x over it.
// A few steps do: the `isqrt` of std halves 32 times, which takes more than twice as long.
pub fn isqrt(x: u64) -> u64
    ensures { IsRoot x result }
{
    let mut r = first_guess(x);
    while x < r * r {
        r = (r + x / r) / 2;
    }
    r
}

// The root and the next number.
pub fn root_ends(x: u64) -> Interval
    ensures { RootEnds x result }
{
    let r = isqrt(x);
    Interval::natural(r, r + 1)
}
