// The conductor size.
ghost use Rattle.std.specs.Prelude.{◌≡◌, ◌*◌, ◌≤◌, ◌<◌, ◌^◌};
ghost use Rattle.case.specs.Bounds.{Bounds};
ghost use Rattle.formulas.specs.Size.{duty, size};
ghost use Rattle.decrement.specs.Ends.{df_ends};
ghost use Rattle.current.specs.Ends.{upper_factor};
ghost use Rattle.current.specs.Size.{carried_of, square_of, Parts, square_load, IsSmallest};

use crate::metal::Metal;
use case::Case;
use interval::Interval;
use interval::root::isqrt;

// I in 10^-9 A, by the upper end of the case's decrement factor.
fn fault_current(c: Case, factor: Interval) -> u64
    requires bounds { Bounds c }
    requires factor_value { factor ≡ df_ends c }
    ensures { result ≡ c.fault * upper_factor c }
{
    (c.fault as u64) * (factor.upper as u64)
}

// I·Kf in units of 10^-14.
fn load(c: Case, factor: Interval) -> u64
    requires bounds { Bounds c }
    requires factor_value { factor ≡ df_ends c }
    ensures { result ≡ duty c (upper_factor c) }
{
    let current = fault_current(c, factor);
    let Some(kf) = Metal::kf(c.metal) else {
        return 0;
    };
    current * (kf as u64)
}

// A part of a square times ms.
fn part(p: u64, q: u64, ms: u64) -> u64
    requires p_bound { p < 2000000 }
    requires q_bound { q < 1000000 }
    requires ms_bound { ms ≤ 3000 }
    ensures { result ≡ p * q * ms }
{
    p * q * ms
}

// A part and what is carried to it, over 10^6, rounded up.
fn carried(n: u64, below: u64) -> u64
    requires n_bound { n < 2 ^ 60 }
    requires below_bound { below < 2 ^ 60 }
    ensures { result ≡ carried_of n below }
{
    (n + below + 999999) / 1000000
}

// (u · 10^12 + v · 10^6 + w)² · ms / 10^24, rounded up.
fn square(u: u64, v: u64, w: u64, ms: u64) -> u64
    requires { Parts u v w ms }
    ensures { result ≡ square_of u v w ms }
{
    let lowest = carried(part(w, w, ms), 0);
    let low = carried(part(2 * v, w, ms), lowest);
    let middle = carried(part(2 * u, w, ms) + part(v, v, ms), low);
    part(u, u, ms) + carried(part(2 * u, v, ms), middle)
}

// x² · ms / 10^24, rounded up.
fn square_load(x: u64, ms: u64) -> u64
    requires x_bound { x < 10 ^ 18 }
    requires ms_bound { ms ≤ 3000 }
    ensures { result ≡ square_load x ms }
{
    let upper = x / 1000000;
    square(upper / 1000000, upper % 1000000, x % 1000000, ms)
}

// The smallest number whose square times 10^7 is at least t: the whole root of t / 10^7, or the next number.
fn smallest_square(t: u64) -> u64
    requires { t < 2 ^ 60 }
    ensures { IsSmallest t result }
{
    let root = isqrt(t / 10000000);
    if root * root * 10000000 < t {
        root + 1
    } else {
        root
    }
}

// The conductor size in kcmil, for the case's decrement factor.
pub fn conductor_size(c: Case, factor: Interval) -> u64
    requires bounds { Bounds c }
    requires factor_value { factor ≡ df_ends c }
    ensures { result ≡ size c (upper_factor c) }
{
    smallest_square(square_load(load(c, factor), c.wire as u64))
}
