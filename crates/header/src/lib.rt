// The line of names: each name's column.
#![tactic(auto)]

mod names;

ghost use Rattle.std.specs.Prelude.{◌≡◌, length};
ghost use Rattle.case.specs.Parts.{form_of};
ghost use Rattle.header.specs.Header.{no_columns};
ghost use Rattle.header.specs.Parts.{Header};

use case::{Form, name_count};
pub use names::name;
use names::name_of;
use text::find;

// Puts for each name the column, from 1, where it stands, and for each column the index of its name; the error is the leftmost wrong
// column. A column past the names is wrong whatever it holds: every name has its column by then.
pub fn read_header(
    form: Form,
    line: &[u8],
    at: &mut [usize],
    order: &mut [usize],
) -> Result<(), usize>
    requires at_value { at.old ≡ no_columns (form_of form) }
    requires order_len { length order.old ≡ length (form_of form) }
    ensures { Header (form_of form) line.now result at.new order.new }
{
    let n = name_count(form);
    let mut rest = line;
    for i in 0..n {
        let e = find(rest, b',');
        let k = name_of(form, i, &rest[..e]).ok_or(i + 1)?;
        if at[k] != 0 {
            return Err(i + 1);
        }
        at[k] = i + 1;
        order[i] = k;
        if rest.len() <= e {
            return if i + 1 < n { Err(i + 2) } else { Ok(()) };
        }
        rest = &rest[e + 1..];
    }
    Err(n + 1)
}
