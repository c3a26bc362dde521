// A row into its numbers of the table.
ghost use Rattle.std.specs.Prelude.{◌≡◌, length};
ghost use Rattle.row.specs.Row.{numbers, row_length};

use crate::{ROW_LENGTH, Row};
use decision::verdict_number;

// The numbers in the table's order.
pub fn row_numbers(r: Row) -> [i64; ROW_LENGTH]
    ensures { result ≡ numbers r }
{
    [
        r.station,
        r.season,
        verdict_number(r.verdict),
        r.size,
        r.current.lower,
        r.current.upper,
        r.factor.lower,
        r.factor.upper,
        r.tolerable_touch.lower,
        r.tolerable_touch.upper,
        r.tolerable_step.lower,
        r.tolerable_step.upper,
        r.mesh.lower,
        r.mesh.upper,
        r.step.lower,
        r.step.upper,
        r.resistance.lower,
        r.resistance.upper,
        r.rise.lower,
        r.rise.upper,
    ]
}

// The numbers into a row of the table.
pub fn put_row(r: Row, row: &mut [i64])
    requires { length row.old ≡ row_length }
    ensures { row.new ≡ numbers r }
{
    row.copy_from_slice(&row_numbers(r));
}
