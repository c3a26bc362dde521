// Step voltage of a case, by whole-number intervals.
#![tactic(auto)]

ghost use Rattle.std.specs.Prelude.{◌≡◌, ◌<◌, ◌^◌};
ghost use Rattle.case.specs.Bounds.{Bounds};
ghost use Rattle.drive.specs.Ends.{drive_ends};
ghost use Rattle.by_counts.specs.Ends.{by_counts_of};
ghost use Rattle.step.specs.Ends.{per_metre, power_of_two, share_ends, spacing_sum, ks_ends, ls_twentieths, driven_ends};
ghost use Rattle.step.specs.Ends.{step_voltage_ends};

use by_counts::ByCounts;
use case::Case;
use enclosure::pi;
use interval::Interval;
use lengths::{lc, lr};

// a / d per millimetre, in 10^-9 per metre.
fn per_metre(a: u64, d: u64) -> Interval
    requires a_bound { a < 8388608 }
    requires d_nonzero { (0 < d) × (d < 2 ^ 63) }
    ensures { result ≡ per_metre a d }
{
    Interval::point(a).quotient(Interval::point(d), 1000000000000)
}

// 2^(n−2) of a square, of which 0.5^(n−2) is the inverse.
fn power_of_two(c: Case) -> u64
    requires { Bounds c }
    ensures { result ≡ power_of_two c }
{
    1u64 << (c.across - 2)
}

// (1 − 0.5^(n−2))/D in 10^-9 per metre, for what the case's counts give: of a square by the power of two, else by the half-power.
fn spacing_share(c: Case, by: ByCounts) -> Interval
    requires bounds { Bounds c }
    requires by_value { by ≡ by_counts_of c }
    ensures { result ≡ share_ends c }
{
    let space = c.space as u64;
    if c.across == c.along {
        let p = power_of_two(c);
        return per_metre(p - 1, p * space);
    }
    let half = by.half;
    let rest = Interval::point(1000000000).difference(half);
    rest.quotient(Interval::point(space), 1000)
}

// 1/(2h) + 1/(D+h) + (1 − 0.5^(n−2))/D in 10^-9 per metre.
fn spacing_sum(c: Case, by: ByCounts) -> Interval
    requires bounds { Bounds c }
    requires by_value { by ≡ by_counts_of c }
    ensures { result ≡ spacing_sum c }
{
    let depth = c.depth as u64;
    let space = c.space as u64;
    let by_depth = per_metre(1, 2 * depth).sum(per_metre(1, space + depth));
    by_depth.sum(spacing_share(c, by))
}

// Ks in 10^-7 per metre.
pub fn ks(c: Case, by: ByCounts) -> Interval
    requires bounds { Bounds c }
    requires by_value { by ≡ by_counts_of c }
    ensures { result ≡ ks_ends c }
{
    spacing_sum(c, by).quotient(pi(), 10000000)
}

// LS in twentieths of a millimetre.
pub fn ls(c: Case) -> u64
    requires { Bounds c }
    ensures { result ≡ ls_twentieths c }
{
    15 * lc(c) + 17 * lr(c)
}

// ρ·Ki·IG/LS in mV, for the case's LS and ρ·Ki·IG.
fn driven(c: Case, length: u64, drive: Interval) -> Interval
    requires bounds { Bounds c }
    requires length_len { length ≡ ls_twentieths c }
    requires drive_value { drive ≡ drive_ends c }
    ensures { result ≡ driven_ends c }
{
    drive.quotient(Interval::point(50 * length), 1)
}

// Step voltage in mV, for the case's LS, Ks and ρ·Ki·IG.
pub fn step_voltage(c: Case, length: u64, factor: Interval, drive: Interval) -> Interval
    requires bounds { Bounds c }
    requires length_len { length ≡ ls_twentieths c }
    requires factor_value { factor ≡ ks_ends c }
    requires drive_value { drive ≡ drive_ends c }
    ensures { result ≡ step_voltage_ends c }
{
    driven(c, length, drive).product(factor, 10000000)
}
