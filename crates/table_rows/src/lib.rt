// The rows of stored lines, in the table.
#![tactic(auto)]

ghost use Rattle.std.specs.Prelude.{◌≡◌, ◌≤◌, ◌+◌, ◌*◌, length};
ghost use Rattle.tables.specs.Parts.{part_at, Written};
ghost use Rattle.case.specs.Columns.{name_count};
ghost use Rattle.case.specs.Case.{case_of};
ghost use Rattle.case.specs.Bounds.{Bounds};
ghost use Rattle.row.specs.Row.{numbers, row_length};
ghost use Rattle.row.specs.Ends.{row_of};
ghost use Rattle.table_rows.specs.Rows.{Filled, StoredBounds, stored_cases};

use case::{Case, NAMES, case_of};
use row::{ROW_LENGTH, put_row, work_row};

// The case of line i of a store.
pub fn line_case(values: &[u32], i: usize) -> Case
    requires { name_count * i + name_count ≤ length values.now }
    ensures { result ≡ case_of (part_at name_count values.now i) }
{
    case_of(&values[NAMES * i..NAMES * (i + 1)])
}

// Row i of the table.
fn write_row(c: Case, table: &mut [i64], i: usize)
    requires bounds { Bounds c }
    requires row_length_in_bounds { row_length * i + row_length ≤ length table.old }
    ensures { Written row_length i (numbers (row_of c)) table.old table.new }
{
    put_row(
        work_row(c),
        &mut table[ROW_LENGTH * i..ROW_LENGTH * (i + 1)],
    );
}

// The rows of n lines of values, which are sound.
pub fn write_rows(values: &[u32], n: usize, table: &mut [i64])
    requires stored_bounds { StoredBounds values.now n }
    requires n_in_bounds { name_count * n ≤ length values.now }
    requires n_in_bounds_2 { row_length * n ≤ length table.old }
    ensures { Filled (stored_cases values.now n) table.old table.new }
{
    for i in 0..n {
        write_row(line_case(values, i), table, i);
    }
}
