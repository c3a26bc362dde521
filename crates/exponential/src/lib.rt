// e to the power of minus a number of billionths, as a pair of ends in billionths.
#![tactic(auto)]

ghost use Rattle.std.specs.Prelude.{◌≡◌, ◌≤◌};
ghost use Rattle.interval.specs.Span.{Span};
ghost use Rattle.exponential.specs.Ends.{unit, most, halvings_of, series_of, squared_of, error_of, pair_of, near_ends, exp_ends, exp_pair};

use interval::Interval;

const BILLION: u64 = 1000000000;

// One, in quarters of a billionth.
const UNIT: u64 = 4000000000;

// 22.
const LARGE: u64 = 22000000000;

// The least j for which q / 2^j is at most 1/2: 2^j is the least power of two that is not below 2q, in whole numbers.
fn halve(q: u64) -> u64
    requires { q ≤ most }
    ensures { result ≡ halvings_of q }
{
    (2 * q).div_ceil(BILLION).next_power_of_two().ilog2() as u64
}

// Twelve terms of e^y, from the last to the first, rounded up.
fn series(y: u64) -> u64
    requires { y ≤ 2000000001 }
    ensures { result ≡ series_of 1 y }
{
    let mut sum = UNIT;
    for i in (1..=11).rev() {
        sum = UNIT + (y * sum / (UNIT * i) + 1);
    }
    sum + 1
}

// v squared m times, rounded down.
fn squared(v: u64, m: u64) -> u64
    requires { (v ≤ unit) × (m ≤ 14) }
    ensures { result ≡ squared_of 0 v m }
{
    let mut power = v;
    for _i in 0..m {
        power = power * power / UNIT;
    }
    power
}

// How far the calculation by j squarings can err, in quarters of a billionth.
fn error(j: u64) -> u64
    ensures { result ≡ error_of j }
{
    (12 << j.min(2)) - 2
}

// The two ends from the lower one in quarters, and from how far above it the upper one can be.
fn pair(l: u64, g: u64) -> Interval
    requires { (l ≤ unit) × (g ≤ 1000000000000000) }
    ensures { result ≡ pair_of l g }
{
    Interval::natural(l / 4, ((l + g) / 4 + 1).min(BILLION))
}

// The ends of e^-q in billionths, for q from a to b billionths: e^-q falls as q grows. One over e^(b/2^j), squared j times, is the
// lower end. Over 2^j by a shift, which waits for no division.
fn near_ends(a: u64, b: u64) -> Interval
    requires { (a ≤ b) × (b ≤ most) }
    ensures { result ≡ near_ends a b }
{
    let j = halve(b);
    let s = series((4 * b >> j) + 1);
    let l = squared(UNIT * UNIT / s, j);
    pair(l, 4 * (b - a) + error(j))
}

// The same, below a billionth from 22 on.
fn exp_ends(a: u64, b: u64) -> Interval
    requires { (a ≤ b) × (b ≤ most) }
    ensures { result ≡ exp_ends a b }
{
    if a < LARGE {
        near_ends(a, b)
    } else {
        Interval::natural(0, 1)
    }
}

// The same for a pair q.
pub fn exp_pair(q: Interval) -> Interval
    requires { Span q 0 most most }
    ensures { result ≡ exp_pair q }
{
    exp_ends(q.lower as u64, q.upper as u64)
}
