// The sheet: its answer, and its rows in the caller's table.
#![tactic(auto)]

ghost use Rattle.std.specs.Prelude.{◌*◌, ◌≡◌, length};
ghost use Rattle.case.specs.Columns.{name_count};
ghost use Rattle.judgement.specs.Limits.{most_lines};
ghost use Rattle.sheet.specs.Table.{Answered};

use case::{Form, REFUSED_SHORT};
use judgement::{VALUES, read};
use refusal::Refused;
use row::ROW_LENGTH;
use table_rows::write_rows;

// The count of rows, or a refusal with number, line and column.
#[derive(Clone, Copy)]
pub enum Answer {
    Rows(usize),
    Refused(u32, usize, usize),
}

// The answer to a sheet, and its rows in the table, through a store with room for the values of as many lines as a sheet may have.
fn fill_table(s: &[u8], values: &mut [u32], table: &mut [i64]) -> Answer
    requires { length values.old ≡ name_count * most_lines }
    ensures { Answered s.now table.old table.new result }
{
    match read(Form::Present, s, values) {
        Err(Refused(number, line, column)) => Answer::Refused(number, line, column),
        Ok(n) => {
            if table.len() < ROW_LENGTH * n {
                return Answer::Refused(REFUSED_SHORT, 0, 0);
            }
            write_rows(values, n, table);
            Answer::Rows(n)
        }
    }
}

// The answer to a sheet, and its rows in the table.
pub fn sheet(s: &[u8], table: &mut [i64]) -> Answer
    ensures { Answered s.now table.old table.new result }
{
    let mut values = [0u32; VALUES];
    fill_table(s, &mut values, table)
}
