// ρ·Ki·IG, which mesh and step voltage share, by whole-number intervals.
#![tactic(auto)]

ghost use Rattle.std.specs.Prelude.{◌≡◌};
ghost use Rattle.case.specs.Bounds.{Bounds};
ghost use Rattle.current.specs.Ends.{ig_ends};
ghost use Rattle.drive.specs.Ends.{number_of, soil_current, drive_ends};

use case::Case;
use effective_number::ki;
use interval::Interval;

// ρ·IG in 10^-6, for the case's current.
fn soil_current(c: Case, current: Interval) -> Interval
    requires bounds { Bounds c }
    requires current_value { current ≡ ig_ends c }
    ensures { result ≡ soil_current c }
{
    current.scaled(c.soil as u64)
}

// ρ·Ki·IG in 10^-9, for the case's n and current.
pub fn drive(c: Case, n: Interval, current: Interval) -> Interval
    requires bounds { Bounds c }
    requires n_value { n ≡ number_of c }
    requires current_value { current ≡ ig_ends c }
    ensures { result ≡ drive_ends c }
{
    ki(n).wide_product(soil_current(c, current), 10000000)
}
