// What intervals enclose: definitions in specs/, laws in proofs/; and the ends of π.
#![tactic(auto)]

ghost use Rattle.std.specs.Prelude.{◌≡◌};
ghost use Rattle.enclosure.specs.Pi.{π_ends};

use interval::Interval;

// π in 10^-9, rounded down and up.
pub const PI_BELOW: u64 = 3141592653;

pub const PI_ABOVE: u64 = 3141592654;

pub fn pi() -> Interval
    ensures { result ≡ π_ends }
{
    Interval::natural(PI_BELOW, PI_ABOVE)
}
