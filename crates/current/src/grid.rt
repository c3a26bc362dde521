// The grid current.
ghost use Rattle.std.specs.Prelude.{◌≡◌};
ghost use Rattle.case.specs.Bounds.{Bounds};
ghost use Rattle.decrement.specs.Ends.{df_ends};
ghost use Rattle.current.specs.Ends.{ig_ends};

use case::Case;
use interval::Interval;

// IG in microamperes, for the case's decrement factor.
pub fn ig(c: Case, factor: Interval) -> Interval
    requires bounds { Bounds c }
    requires factor_value { factor ≡ df_ends c }
    ensures { result ≡ ig_ends c }
{
    factor.scaled((c.fault * c.split) as u64).outward(1000000)
}
