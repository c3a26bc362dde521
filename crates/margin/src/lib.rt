// How far the voltages of a row lie above what is tolerable, from the ends on the cautious side: a voltage's upper end against the
// tolerable voltage's lower end.
#![tactic(auto)]

ghost use Rattle.std.specs.Prelude.{◌≡◌, T, nat_abs};
ghost use Rattle.margin.specs.Margin.{in_range, comparable as comparable_ends, margin as margin_of, four_margins, margins_of};

use row::{MESH_UPPER, ROW_LENGTH, STEP_UPPER, TOLERABLE_STEP_LOWER, TOLERABLE_TOUCH_LOWER};
use whole::wide;

// In mV; no row has so many.
const MOST: i64 = 1000000000000000;

// All of a tolerable voltage in tenths of a percent.
const WHOLE: u64 = 1000;

// Whether z lies from low to MOST.
fn in_range(low: i64, z: i64) -> bool
    ensures { result ≡ in_range low z }
{
    (low <= z) & (z <= MOST)
}

// Whether a voltage and a tolerable one are in the range for which margins are reported; those of every row are.
fn comparable(voltage: i64, tolerable: i64) -> bool
    ensures { result ≡ comparable_ends voltage tolerable }
{
    in_range(0, voltage) & in_range(1, tolerable)
}

// The smallest whole m with 1000 · voltage ≤ (1000 + m) · tolerable.
fn margin(voltage: i64, tolerable: i64) -> i64
    requires { T (comparable_ends voltage tolerable) }
    ensures { result ≡ margin_of (nat_abs voltage) (nat_abs tolerable) }
{
    wide::ceil(WHOLE, voltage as u64, tolerable as u64) as i64 - WHOLE as i64
}

// Mesh voltage against tolerable touch, step voltage against tolerable step.
fn compare(mesh: i64, tolerable_touch: i64, step: i64, tolerable_step: i64) -> Option<(i64, i64)>
    ensures { result ≡ four_margins mesh tolerable_touch step tolerable_step }
{
    if comparable(mesh, tolerable_touch) {
        if comparable(step, tolerable_step) {
            return Some((margin(mesh, tolerable_touch), margin(step, tolerable_step)));
        }
    }
    None
}

// The margins of a row of the table: mesh voltage above tolerable touch, then step voltage above tolerable step, in tenths of a percent of
// what is tolerable and below it as a negative number. No row has None.
pub fn margins(row: &[i64]) -> Option<(i64, i64)>
    ensures { result ≡ margins_of row.now }
{
    if row.len() == ROW_LENGTH {
        return compare(
            row[MESH_UPPER],
            row[TOLERABLE_TOUCH_LOWER],
            row[STEP_UPPER],
            row[TOLERABLE_STEP_LOWER],
        );
    }
    None
}
