// The lines of rows as text in a lent buffer: what is shown of a row, and the lines of a table.
#![tactic(auto)]

ghost use Rattle.std.specs.Prelude.{◌+◌, ◌*◌, ◌≤◌, ◌≡◌, map, length};
ghost use Rattle.tables.specs.Parts.{parts_of};
ghost use Rattle.writing.specs.Text.{ended, text_of};
ghost use Rattle.writing.specs.Put.{Put};
ghost use Rattle.row.specs.Row.{row_length};
ghost use Rattle.row_text.specs.Shown.{margin_numbers, shown_line, lines_after};

use fields::put_fields;
use margin::margins;
use row::{KCMIL, SEASON, STATION, VERDICT};
use writing::put_bytes;

// Station, season, verdict and size stand first in a row.
const FIRST: usize = KCMIL + 1;

// What is shown of a row: station, season, verdict by its word and size; all its numbers; or station, season, verdict and the two margins.
#[derive(Clone, Copy)]
pub enum Shown {
    Verdict,
    Numbers,
    Margins,
}

// Station, season and verdict of a row and its two margins; every row has them.
fn margin_numbers(row: &[i64]) -> [i64; 5]
    requires { 4 ≤ length row.now }
    ensures { result ≡ margin_numbers row.now }
{
    let (mesh, step) = margins(row).unwrap_or((0, 0));
    [row[STATION], row[SEASON], row[VERDICT], mesh, step]
}

// The line of one row, with its byte 10.
fn put_row(buf: &mut [u8], at: usize, row: &[i64], what: Shown) -> usize
    requires in_bounds { 4 ≤ length row.now }
    requires row_in_bounds { at + length (ended (shown_line what row.now)) ≤ length buf.old }
    ensures { Put buf.old at (ended (shown_line what row.now)) buf.new result }
{
    match what {
        Shown::Verdict => put_fields(buf, at, &row[..FIRST], VERDICT),
        Shown::Numbers => put_fields(buf, at, row, row.len()),
        Shown::Margins => {
            let numbers = margin_numbers(row);
            put_fields(buf, at, &numbers, VERDICT)
        }
    }
}

// The lines of n rows of so many numbers each.
fn put_rows(buf: &mut [u8], at: usize, rows: &[i64], n: usize, width: usize, what: Shown) -> usize
    requires le_width { (4 ≤ width) × (width ≤ row_length) }
    requires width_in_bounds { n * width ≤ length rows.now }
    requires rows_in_bounds { at + length (text_of (map (shown_line what) (parts_of width n rows.now))) ≤ length buf.old }
    ensures { Put buf.old at (text_of (map (shown_line what) (parts_of width n rows.now))) buf.new result }
{
    let mut p = at;
    for row in rows[..n * width].chunks_exact(width) {
        p = put_row(buf, p, row, what);
    }
    p
}

// A line of names and the lines of n rows, at the start of the buffer.
pub fn put_table<'a>(
    buf: &mut [u8],
    names: &'a [u8],
    table: &'a [i64],
    n: usize,
    width: usize,
    what: Shown,
) -> usize
    requires le_width { (4 ≤ width) × (width ≤ row_length) }
    requires width_in_bounds { n * width ≤ length table.now }
    requires table_in_bounds { length (lines_after names.now what (parts_of width n table.now)) ≤ length buf.old }
    ensures { Put buf.old 0 (lines_after names.now what
        (parts_of width n table.now)) buf.new result }
{
    let p = put_bytes(buf, 0, names);
    put_rows(buf, p, table, n, width, what)
}
