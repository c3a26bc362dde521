// The row of a case that the checks found sound.
ghost use Rattle.std.specs.Prelude.{◌≡◌, pos};
ghost use Rattle.case.specs.Bounds.{Bounds};
ghost use Rattle.formulas.specs.Size as Size;
ghost use Rattle.decrement.specs.Ends.{df_ends};
ghost use Rattle.current.specs.Ends.{upper_factor};
ghost use Rattle.row.specs.Ends.{row_of};

use crate::Row;
use crate::parts::{driven_parts, fixed_parts};
use case::Case;
use decision::verdict_of;
use interval::Interval;

fn size_number(c: Case, factor: Interval) -> i64
    requires bounds { Bounds c }
    requires factor_value { factor ≡ df_ends c }
    ensures { result ≡ pos (Size.size c (upper_factor c)) }
{
    let size = current::conductor_size(c, factor);
    size as i64
}

pub fn work_row(c: Case) -> Row
    requires { Bounds c }
    ensures { result ≡ row_of c }
{
    let fixed = fixed_parts(c);
    let driven = driven_parts(c, fixed);
    let factor = fixed.factor;
    let current = driven.current;
    let tolerable_touch = fixed.tolerable_touch;
    let tolerable_step = fixed.tolerable_step;
    let mesh = driven.mesh;
    let step = driven.step;
    let ohms = resistance::resistance(c);
    let rise = resistance::potential_rise(c, ohms, current);
    Row {
        station: c.station as i64,
        season: c.season as i64,
        verdict: verdict_of(tolerable_touch, tolerable_step, mesh, step),
        size: size_number(c, factor),
        current,
        factor,
        tolerable_touch,
        tolerable_step,
        mesh,
        step,
        resistance: ohms,
        rise,
    }
}
