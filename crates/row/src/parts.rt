// The parts of a row that decide its verdict: what its fault current does not change, and what it drives.
ghost use Rattle.std.specs.Prelude.{◌≡◌};
ghost use Rattle.case.specs.Bounds.{Bounds};
ghost use Rattle.row.specs.Parts.{fixed_of, driven_of};

use crate::{Driven, Fixed};
use case::Case;

// Df, what is tolerable, n, and the lengths and factors of mesh and step voltage.
pub fn fixed_parts(c: Case) -> Fixed
    requires { Bounds c }
    ensures { result ≡ fixed_of c }
{
    let factor = decrement::df(c);
    let tolerable = tolerable::touch_and_step(c);
    let tolerable_touch = tolerable.touch;
    let tolerable_step = tolerable.step;
    let by = by_counts::by_counts(c.across, c.along);
    let number = by.n;
    Fixed {
        factor,
        tolerable_touch,
        tolerable_step,
        number,
        lm: mesh::lm(c),
        km: mesh::km(c, by),
        ls: step::ls(c),
        ks: step::ks(c, by),
    }
}

// Grid current, mesh and step voltage, for the case's fixed parts.
pub fn driven_parts(c: Case, fixed: Fixed) -> Driven
    requires bounds { Bounds c }
    requires fixed_value { fixed ≡ fixed_of c }
    ensures { result ≡ driven_of c }
{
    let current = current::ig(c, fixed.factor);
    let drive = drive::drive(c, fixed.number, current);
    Driven {
        current,
        mesh: mesh::mesh_voltage(c, fixed.lm, fixed.km, drive),
        step: step::step_voltage(c, fixed.ls, fixed.ks, drive),
    }
}
