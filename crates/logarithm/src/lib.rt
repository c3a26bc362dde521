// The natural logarithm of a fraction of two whole numbers, as a pair of ends in billionths.
#![tactic(auto)]

ghost use Rattle.std.specs.Prelude.{◌≡◌, ◌≤◌};
ghost use Rattle.logarithm.specs.Ends.{Inside, up_ends, ln_ends};
ghost use Rattle.logarithm.specs.Asked.{inside, Answered};

use interval::Interval;
use refusal::Refused;

mod argument;
mod terms;

// The largest number of a fraction: 10^15.
const MOST: u64 = 1000000000000000;

// How far above the lower end the upper one can be, in billionths.
const GAP: u64 = 6;

// The refusal of a number out of its range.
const REFUSED_RANGE: u32 = 5;

// The ends of ln (p/q), for q not above p.
fn up_ends(p: u64, q: u64) -> Interval
    requires { Inside p × (Inside q × (q ≤ p)) }
    ensures { result ≡ up_ends p q }
{
    let r = argument::reduce(p, q);
    let low = terms::end(r.times, r.argument);
    Interval::natural(low, low + GAP)
}

// The ends of ln (p/q), in billionths: below 1 it is minus ln (q/p).
pub fn ln_ends(p: u64, q: u64) -> Interval
    requires { Inside p × Inside q }
    ensures { result ≡ ln_ends p q }
{
    if p < q {
        up_ends(q, p).minus()
    } else {
        up_ends(p, q)
    }
}

fn is_inside(n: u64) -> bool
    ensures { result ≡ inside n }
{
    (1..=MOST).contains(&n)
}

// ln (p/q), or the refusal of a number that is not from 1 to 10^15.
pub fn logarithm(p: u64, q: u64) -> Result<Interval, Refused>
    ensures { Answered p q result }
{
    if !is_inside(p) {
        return Err(Refused(REFUSED_RANGE, 0, 1));
    }
    if !is_inside(q) {
        return Err(Refused(REFUSED_RANGE, 0, 2));
    }
    Ok(ln_ends(p, q))
}
