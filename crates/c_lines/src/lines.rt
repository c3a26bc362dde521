// The numbers of every value line of a sheet, one line after the other.
ghost use Rattle.std.specs.Prelude.{◌≡◌, ◌≤◌, ◌*◌, length};
ghost use Rattle.case.specs.Columns.{name_count};
ghost use Rattle.judgement.specs.Limits.{most_lines};
ghost use Rattle.table_rows.specs.Rows.{StoredBounds, stored_cases};
ghost use Rattle.c_line.specs.Line.{width_of};
ghost use Rattle.c_lines.specs.Lines.{Filled, LinesAnswered};

use c_line::{Question, put_line, width};
use case::{Form, REFUSED_SHORT};
use judgement::{VALUES, read};
use refusal::Refused;
use table_rows::line_case;

// The numbers of n lines of values, which are sound.
fn write_lines(question: Question, values: &[u32], n: usize, numbers: &mut [i64])
    requires stored_bounds { StoredBounds values.now n }
    requires n_in_bounds { name_count * n ≤ length values.now }
    requires n_in_bounds_2 { width_of question * n ≤ length numbers.old }
    ensures { Filled question (stored_cases values.now n) numbers.old numbers.new }
{
    let wide = width(question);
    let mut i: usize = 0;
    while i < n {
        let c = line_case(values, i);
        let from = wide * i;
        let to = from + wide;
        put_line(question, c, &mut numbers[from..to]);
        i += 1;
    }
}

// The answer to a sheet, and the numbers of its lines in the array, through a store with room for the values of as many lines as a sheet
// may have.
fn fill_lines(
    question: Question,
    s: &[u8],
    values: &mut [u32],
    numbers: &mut [i64],
) -> Result<usize, Refused>
    requires { length values.old ≡ name_count * most_lines }
    ensures { LinesAnswered question s.now numbers.old numbers.new result }
{
    let n = read(Form::Present, s, values)?;
    if numbers.len() < width(question) * n {
        return Err(Refused(REFUSED_SHORT, 0, 0));
    }
    write_lines(question, values, n, numbers);
    Ok(n)
}

// The answer to a sheet, and the numbers of its lines in the array.
pub fn answer_lines(question: Question, s: &[u8], numbers: &mut [i64]) -> Result<usize, Refused>
    ensures { LinesAnswered question s.now numbers.old numbers.new result }
{
    let mut values = [0u32; VALUES];
    fill_lines(question, s, &mut values, numbers)
}
