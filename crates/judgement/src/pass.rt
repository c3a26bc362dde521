// The pass over the value lines.
ghost use Rattle.std.specs.Prelude.{◌≡◌, ◌+◌, ◌*◌, ◌≤◌, length};
ghost use Rattle.text.specs.Text.{lines_of};
ghost use Rattle.case.specs.Bounds.{Placed};
ghost use Rattle.case.specs.Order.{Ordered};
ghost use Rattle.case.specs.Parts.{form_of};
ghost use Rattle.judgement.specs.Limits.{most_lines};
ghost use Rattle.judgement.specs.Refusal.{line_judgement};
ghost use Rattle.judgement.specs.Read.{LineStored};
ghost use Rattle.line_finding.specs.Parts.{keys_of, AtMost};
ghost use Rattle.judgement.specs.Read.{LinesRead};

use crate::LINES;
use case::{Form, REFUSED_FORM, REFUSED_PARTS, REFUSED_RANGE, REFUSED_REPEATED};
use line_finding::{LineFinding, check_line, key};
use refusal::Refused;
use text::{find, skip};

// The refusal of a line, where it is not sound.
fn refusal(line: usize, f: LineFinding) -> Result<(), Refused>
    ensures { result ≡ line_judgement line (Ok tt) f }
{
    match f {
        LineFinding::Sound => Ok(()),
        LineFinding::Form(column) => Err(Refused(REFUSED_FORM, line, column)),
        LineFinding::OutOfRange(column) => Err(Refused(REFUSED_RANGE, line, column)),
        LineFinding::Disagreement(column) => Err(Refused(REFUSED_PARTS, line, column)),
        LineFinding::Repeated => Err(Refused(REFUSED_REPEATED, line, 0)),
    }
}

// The checks of a line, whose values are part n of the store.
fn store_line<'a>(
    form: Form,
    line: &'a [u8],
    at: &'a [usize],
    order: &'a [usize],
    keys: &'a [u32],
    n: usize,
    most: u32,
    values: &mut [u32],
) -> LineFinding
    requires placed { Placed (length (form_of form)) at.now }
    requires ordered { Ordered (length (form_of form)) at.now order.now }
    requires n_in_bounds { n ≤ length keys.now }
    requires at_most { AtMost keys.now n most }
    requires form_in_bounds { length (form_of form) * n + length (form_of form) ≤ length values.old }
    ensures { LineStored (form_of form) at.now (keys_of keys.now n) line.now n values.old
        values.new result }
{
    let k = at.len();
    let a = k * n;
    let b = a + k;
    check_line(form, line, at, order, keys, n, most, &mut values[a..b])
}

// Line by line; s holds the value lines, of which there are count, and their values go into the store.
pub fn check_lines<'a>(
    form: Form,
    s: &'a [u8],
    at: &'a [usize],
    order: &'a [usize],
    count: usize,
    values: &mut [u32],
) -> Result<usize, Refused>
    requires placed { Placed (length (form_of form)) at.now }
    requires ordered { Ordered (length (form_of form)) at.now order.now }
    requires count_value { count ≡ length (lines_of s.now) }
    requires count_le_most_lines { count ≤ most_lines }
    requires count_in_bounds { length (form_of form) * count ≤ length values.old }
    ensures { LinesRead (form_of form) at.now (lines_of s.now) (Ok count) values.old
        values.new result }
{
    let width = at.len();
    let mut keys = [0u32; LINES];
    let mut most: u32 = 0;
    let mut rest = s;
    let mut n: usize = 0;
    while 0 < rest.len() {
        let e = find(rest, 10);
        let f = store_line(form, &rest[..e], at, order, &keys, n, most, values);
        refusal(n + 2, f)?;
        let a = width * n;
        let k = key(values[a], values[a + 1]);
        keys[n] = k;
        most = most.max(k);
        n += 1;
        let next = skip(e, rest.len());
        rest = &rest[next..];
    }
    Ok(count)
}
