// A value line: its values in the order of the names.
#![tactic(auto)]

ghost use Rattle.std.specs.Prelude.{◌≤◌, length};
ghost use Rattle.case.specs.Order.{Distinct};
ghost use Rattle.text.specs.Text.{fields_of};
ghost use Rattle.line.specs.Parts.{LineValues, ValuesAt};

use text::{FRONT, first_field, front_value};

// The values at the front of a line: how many are put, and what is left of the line.
#[derive(Clone, Copy)]
struct Front<'a> {
    count: usize,
    rest: &'a [u8],
}

// Puts the values at the front of a line, as far as each is read in one pass.
fn front_values<'a>(line: &'a [u8], order: &[usize], row: &mut [u32]) -> Front<'a>
    requires { Distinct (length row.old) order.now }
    ensures shorter { length result.rest.now ≤ length line.now }
    ensures put { ValuesAt (length row.old) order.now (fields_of line.now) row.new
        (fields_of result.rest.now) result.count }
{
    let mut rest = line;
    for (count, k) in order.iter().enumerate() {
        let Some(v) = rest.get(..FRONT).and_then(front_value) else {
            return Front { count, rest };
        };
        row[*k] = v.value;
        rest = &rest[v.end + 1..];
    }
    Front {
        count: order.len(),
        rest,
    }
}

// Puts the values of a line at the indices of their columns' names; the error is the leftmost wrong column.
pub fn read_values(line: &[u8], order: &[usize], row: &mut [u32]) -> Result<(), usize>
    requires { Distinct (length row.old) order.now }
    ensures { LineValues (length row.old) order.now line.now result row.new }
{
    let n = row.len();
    let Front { count, mut rest } = front_values(line, order, row);
    for c in count..n {
        let first = first_field(rest);
        let x = first.value.ok_or(c + 1)?;
        row[order[c]] = x;
        if rest.len() <= first.end {
            return if c + 1 < n { Err(c + 2) } else { Ok(()) };
        }
        rest = &rest[first.end + 1..];
    }
    Err(n + 1)
}
