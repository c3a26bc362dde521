// Mesh voltage of a case, by whole-number intervals.
#![tactic(auto)]

ghost use Rattle.std.specs.Prelude.{◌≡◌};
ghost use Rattle.case.specs.Bounds.{Bounds};
ghost use Rattle.drive.specs.Ends.{drive_ends};
ghost use Rattle.mesh.specs.Factor.{km_ends};
ghost use Rattle.mesh.specs.Ends.{lm_ends, driven_ends, mesh_ends};

use case::Case;
use interval::Interval;

mod factor;
mod rods;

pub use factor::{kh, kii, km};
pub use rods::lm;

// ρ·Ki·IG/LM in mV, for the case's LM and ρ·Ki·IG.
pub fn driven(c: Case, length: Interval, drive: Interval) -> Interval
    requires bounds { Bounds c }
    requires length_len { length ≡ lm_ends c }
    requires drive_value { drive ≡ drive_ends c }
    ensures { result ≡ driven_ends c }
{
    drive.quotient(length, 1)
}

// Mesh voltage in mV, for the case's LM, Km and ρ·Ki·IG.
pub fn mesh_voltage(c: Case, length: Interval, factor: Interval, drive: Interval) -> Interval
    requires bounds { Bounds c }
    requires length_len { length ≡ lm_ends c }
    requires factor_value { factor ≡ km_ends c }
    requires drive_value { drive ≡ drive_ends c }
    ensures { result ≡ mesh_ends c }
{
    driven(c, length, drive).product(factor, 10000000)
}
