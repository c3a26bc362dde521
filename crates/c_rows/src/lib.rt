// The rows of the buffer: the row of each line goes straight to its place, number by number.
#![tactic(auto)]

ghost use Rattle.std.specs.Prelude.{◌≤◌, ◌+◌, ◌*◌, ◌≡◌, length};
ghost use Rattle.case.specs.Columns.{name_count};
ghost use Rattle.case.specs.Bounds.{Bounds};
ghost use Rattle.table_rows.specs.Rows.{StoredBounds, stored_cases};
ghost use Rattle.c_rows.specs.Rows.{row_bytes, Filled};
ghost use Rattle.c_rows.specs.Put.{Put, RowPut};

use c_bytes::{NUMBER_BYTES, put_number};
use case::Case;
use row::{ROW_LENGTH, row_numbers, work_row};
use table_rows::line_case;

// How many bytes a row has.
pub const ROW_BYTES: usize = NUMBER_BYTES * ROW_LENGTH;

// The bytes of a row's numbers. Two numbers a step: of a loop over single numbers the compiler makes a copy of memory, which has to wait
// until all the row's numbers are stored.
fn put_numbers(numbers: [i64; ROW_LENGTH], part: &mut [u8])
    requires { length part.old ≡ row_bytes }
    ensures { Put numbers part.new }
{
    let mut i: usize = 0;
    while i < ROW_LENGTH {
        let a = NUMBER_BYTES * i;
        let b = a + NUMBER_BYTES;
        let e = b + NUMBER_BYTES;
        put_number(numbers[i], &mut part[a..b]);
        put_number(numbers[i + 1], &mut part[b..e]);
        i += 2;
    }
}

// The row of a case, as row i of the buffer.
fn put_row(c: Case, buffer: &mut [u8], i: usize)
    requires bounds { Bounds c }
    requires row_bytes_in_bounds { row_bytes * i + row_bytes ≤ length buffer.old }
    ensures { RowPut c i buffer.old buffer.new }
{
    let numbers = row_numbers(work_row(c));
    let a = ROW_BYTES * i;
    let b = a + ROW_BYTES;
    put_numbers(numbers, &mut buffer[a..b]);
}

// The rows of n lines of values, which are sound.
pub fn write_rows(values: &[u32], n: usize, buffer: &mut [u8])
    requires stored_bounds { StoredBounds values.now n }
    requires n_in_bounds { name_count * n ≤ length values.now }
    requires n_in_bounds_2 { row_bytes * n ≤ length buffer.old }
    ensures { Filled (stored_cases values.now n) buffer.old buffer.new }
{
    let mut i: usize = 0;
    while i < n {
        let c = line_case(values, i);
        put_row(c, buffer, i);
        i += 1;
    }
}
