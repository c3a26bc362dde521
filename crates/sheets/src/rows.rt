// The rows of a sheet in a table.
ghost use Rattle.std.specs.Prelude.{◌≤◌};

use crate::listed::{Listing, lines, print_kept};
use gate::{hold, numbers_kept, refused};
use judgement::LINES;
use row::ROW_LENGTH;
use sheet::Answer;

// Room for the most rows.
pub const TABLE: usize = LINES * ROW_LENGTH;

// Room for two rows.
const SHORT: usize = 2 * ROW_LENGTH;

// The names of what is listed of a row; of all its numbers with their units.
fn names(what: Listing) -> &'static str {
    match what {
        Listing::Numbers => "station,season,verdict,size_kcmil\
            ,grid_current_lower_uA,grid_current_upper_uA,factor_lower_billionths,factor_upper_billionths\
            ,tolerable_touch_lower_mV,tolerable_touch_upper_mV\
            ,tolerable_step_lower_mV,tolerable_step_upper_mV\
            ,mesh_lower_mV,mesh_upper_mV,step_lower_mV,step_upper_mV\
            ,resistance_lower_uohm,resistance_upper_uohm,rise_lower_mV,rise_upper_mV",
        Listing::Verdicts => "station,season,verdict,kcmil",
    }
}

// The first count rows of the table, after a line of names.
pub fn row_lines(rt: &impl Print, what: Listing, table: &[i64], count: usize) {
    let _ = rt.println(names(what));
    lines(rt, what, table, ROW_LENGTH, count);
}

// Prints the answer to a sheet, and leaves its rows in the table.
pub fn answer(rt: &impl Print, what: Listing, s: &[u8], table: &mut [i64]) {
    let a = sheet::sheet(s, table);
    match a {
        Answer::Rows(count) => row_lines(rt, what, table, count),
        Answer::Refused(why, line, column) => refused(rt, why, line, column),
    }
}

// One answer, in the first room numbers of a table.
fn in_table(rt: &impl Print, what: Listing, s: &[u8], room: usize)
    requires { room ≤ TABLE }
{
    let mut table = [0i64; TABLE];
    hold(&mut table);
    answer(rt, what, s, &mut table[..room]);
    print_kept(rt, numbers_kept(&table));
}

// The four answers to a sheet.
pub fn ask(rt: &impl Print, s: &[u8]) {
    in_table(rt, Listing::Numbers, s, TABLE);
    in_table(rt, Listing::Numbers, s, SHORT);
    in_table(rt, Listing::Verdicts, s, TABLE);
    in_table(rt, Listing::Verdicts, s, SHORT);
}
