// Km, the geometric factor of the mesh voltage.
ghost use Rattle.std.specs.Prelude.{◌≡◌};
ghost use Rattle.case.specs.Bounds.{Bounds};
ghost use Rattle.mesh.specs.Factor.{argument_top, argument_bottom, argument_log, kh_ends, kii_ends, inner_term, km_ends};
ghost use Rattle.by_counts.specs.Ends.{by_counts_of};

use by_counts::ByCounts;
use case::Case;
use enclosure::pi;
use interval::Interval;
use interval::root::root_ends;
use logarithm::ln_ends;

// G is argument_top over argument_bottom.
fn argument_top(c: Case) -> u64
    requires { Bounds c }
    ensures { result ≡ argument_top c }
{
    let space = c.space as u64;
    let depth = c.depth as u64;
    10 * (space + 2 * depth) * (space * space + 4 * (depth * depth))
}

fn argument_bottom(c: Case) -> u64
    requires { Bounds c }
    ensures { result ≡ argument_bottom c }
{
    16 * (c.depth as u64) * (c.dia as u64) * (c.space as u64)
}

// ln G in 10^-9.
fn argument_log(c: Case) -> Interval
    requires { Bounds c }
    ensures { result ≡ argument_log c }
{
    ln_ends(argument_top(c), argument_bottom(c))
}

// Kh in 10^-9.
pub fn kh(c: Case) -> Interval
    requires { Bounds c }
    ensures { result ≡ kh_ends c }
{
    root_ends((1000 + (c.depth as u64)) * 1000000000000000)
}

// Kii in 10^-9, for what the case's counts give.
pub fn kii(c: Case, by: ByCounts) -> Interval
    requires bounds { Bounds c }
    requires by_value { by ≡ by_counts_of c }
    ensures { result ≡ kii_ends c }
{
    if c.place == 1 {
        return Interval::point(1000000000);
    }
    by.inner
}

// (Kii/Kh)·ln(8/(π(2n−1))) in 10^-9.
fn inner_term(c: Case, by: ByCounts) -> Interval
    requires bounds { Bounds c }
    requires by_value { by ≡ by_counts_of c }
    ensures { result ≡ inner_term c }
{
    let ratio = kii(c, by).quotient(kh(c), 1000000000);
    let spread = by.spread;
    ratio.product(spread, 1000000000)
}

// Km in 10^-7.
pub fn km(c: Case, by: ByCounts) -> Interval
    requires bounds { Bounds c }
    requires by_value { by ≡ by_counts_of c }
    ensures { result ≡ km_ends c }
{
    let turn = pi().scaled(2);
    argument_log(c)
        .sum(inner_term(c, by))
        .quotient(turn, 10000000)
}
