// The decrement factor by IEEE Std 80-2013, equation 84, as a pair of ends in billionths.
#![tactic(auto)]

ghost use Rattle.std.specs.Prelude.{◌≡◌};
ghost use Rattle.case.specs.Bounds.{Bounds};
ghost use Rattle.decrement.specs.Ends.{exponent_ends, square_ends, df_ends};

use case::Case;
use enclosure::pi;
use exponential::exp_pair;
use interval::Interval;
use interval::root::isqrt;

const BILLION: u64 = 1000000000;

// 2tf/Ta in 10^-9.
fn exponent(c: Case) -> Interval
    requires { Bounds c }
    ensures { result ≡ exponent_ends c }
{
    pi().scaled((4 * c.hz * c.clear) as u64)
        .outward((1000 * c.xr) as u64)
}

// 1 + (Ta/tf)(1 − e^(−2tf/Ta)) in 10^-9.
fn square(c: Case) -> Interval
    requires { Bounds c }
    ensures { result ≡ square_ends c }
{
    let q = exponent(c);
    let ratio = Interval::point(2).quotient(q, 1000000000000000000);
    let rest = Interval::point(BILLION).difference(exp_pair(q));
    Interval::point(BILLION).sum(rest.wide_product(ratio, BILLION))
}

// Df in 10^-9.
pub fn df(c: Case) -> Interval
    requires { Bounds c }
    ensures { result ≡ df_ends c }
{
    let s = square(c);
    Interval::natural(
        isqrt((s.lower as u64) * BILLION),
        isqrt((s.upper as u64) * BILLION) + 1,
    )
}
