// The lines of a station among the stored values of a sheet.
ghost use Rattle.std.specs.Prelude.{◌≡◌, ◌≤◌, ◌*◌, length};
ghost use Rattle.case.specs.Columns.{name_count};
ghost use Rattle.judgement.specs.Limits.{most_lines};
ghost use Rattle.table_rows.specs.Rows.{StoredBounds, stored_cases};
ghost use Rattle.tally.specs.Lines.{lines_of, first_line};
ghost use Rattle.tally.specs.Tally.{tally_of};

use crate::Tally;
use crate::add::add;
use case::{Case, NAMES, case_of};
use table_rows::line_case;

// The greatest fault current in range, at which no line at all is unsafe.
const MOST_FAULT: u32 = 80000;

// The first line of a station, or a case of noughts.
pub fn first_line(values: &[u32], n: usize, station: u32) -> Case
    requires { name_count * n ≤ length values.now }
    ensures { result ≡ first_line (lines_of station (stored_cases values.now n)) }
{
    for i in 0..n {
        if values[NAMES * i] == station {
            return line_case(values, i);
        }
    }
    case_of(&[0; NAMES])
}

// What is counted of the lines of a station, whose yards are compared with that of a case, and whose conductor has this cross-section of
// its own in kcmil, or 0. From the last line to the first, as the counts are defined: those of the lines after it, and the line.
pub fn count_lines(values: &[u32], n: usize, station: u32, yard: Case, area: u32) -> Tally
    requires n_le_most_lines { n ≤ most_lines }
    requires stored_bounds { StoredBounds values.now n }
    requires n_in_bounds { name_count * n ≤ length values.now }
    ensures { result ≡ tally_of yard area (lines_of station (stored_cases values.now n)) }
{
    let mut t = Tally {
        lines: 0,
        first: false,
        second: false,
        third: false,
        fourth: false,
        not_safe: 0,
        undecided: 0,
        other: 0,
        small: 0,
        fault: MOST_FAULT,
    };
    for i in (0..n).rev() {
        if values[NAMES * i] == station {
            t = add(yard, area, line_case(values, i), t);
        }
    }
    t
}
