// The reading of a sheet: how many value lines it has, and their values, or why it is refused.
#![tactic(auto)]

mod pass;

ghost use Rattle.std.specs.Prelude.{◌≡◌, ◌*◌, ◌≤◌, length};
ghost use Rattle.text.specs.Text.{lines_of};
ghost use Rattle.case.specs.Bounds.{Placed};
ghost use Rattle.case.specs.Order.{Ordered};
ghost use Rattle.case.specs.Parts.{form_of};
ghost use Rattle.header.specs.Header.{no_columns};
ghost use Rattle.judgement.specs.Limits.{today, most_lines};
ghost use Rattle.judgement.specs.Sheet.{bad_text};
ghost use Rattle.judgement.specs.Read.{Room, ValuesRead, Read};

use case::{FORMER_NAMES, Form, NAMES, REFUSED_LINES, REFUSED_NAME, REFUSED_TEXT};
use header::read_header;
use pass::check_lines;
use refusal::Refused;
use text::{count_lines, find, skip};

// The most value lines and bytes of a sheet.
pub const LINES: usize = 256;

pub const BYTES: usize = 65536;

// The numbers of a store for as many value lines of today's form as a sheet may have.
pub const VALUES: usize = LINES * NAMES;

// The line named where there are too many.
const PAST_LINES: usize = LINES + 2;

// Refusal 1.
pub fn bad_text(s: &[u8]) -> bool
    ensures { result ≡ bad_text today s.now }
{
    let n = s.len();
    if n == 0 {
        return true;
    }
    if BYTES < n {
        return true;
    }
    s[n - 1] != 10
}

// Refusals 4, 3, 5, 6 and 7; s holds the value lines, whose values go into the store.
fn judge_values<'a>(
    form: Form,
    s: &'a [u8],
    at: &'a [usize],
    order: &'a [usize],
    values: &mut [u32],
) -> Result<usize, Refused>
    requires placed { Placed (length (form_of form)) at.now }
    requires ordered { Ordered (length (form_of form)) at.now order.now }
    requires room { Room (form_of form) (lines_of s.now) values.old }
    ensures { ValuesRead (form_of form) at.now (lines_of s.now) values.old values.new result }
{
    let n = count_lines(s);
    if n == 0 {
        return Err(Refused(REFUSED_LINES, 2, 0));
    }
    if LINES < n {
        return Err(Refused(REFUSED_LINES, PAST_LINES, 0));
    }
    check_lines(form, s, at, order, n, values)
}

// The judgement of a sheet, and its values in the store; the other two slices have a place for each name of the form.
fn read_by(
    form: Form,
    s: &[u8],
    at: &mut [usize],
    order: &mut [usize],
    values: &mut [u32],
) -> Result<usize, Refused>
    requires at_value { at.old ≡ no_columns (form_of form) }
    requires order_len { length order.old ≡ length (form_of form) }
    requires room { Room (form_of form) (lines_of s.now) values.old }
    ensures { Read (form_of form) s.now values.old values.new result }
{
    if bad_text(s) {
        return Err(Refused(REFUSED_TEXT, 0, 0));
    }
    let e = find(s, 10);
    match read_header(form, &s[..e], at, order) {
        Err(column) => Err(Refused(REFUSED_NAME, 1, column)),
        Ok(()) => {
            let next = skip(e, s.len());
            judge_values(form, &s[next..], at, order, values)
        }
    }
}

// The judgement of a sheet of a form, and its values in the store, line after line in the order of the names. The store has room for the
// lines that the sheet has.
pub fn read_within(form: Form, s: &[u8], values: &mut [u32]) -> Result<usize, Refused>
    requires { Room (form_of form) (lines_of s.now) values.old }
    ensures { Read (form_of form) s.now values.old values.new result }
{
    match form {
        Form::Present => {
            let mut at = [0usize; NAMES];
            let mut order = [0usize; NAMES];
            read_by(form, s, &mut at, &mut order, values)
        }
        Form::Former => {
            let mut at = [0usize; FORMER_NAMES];
            let mut order = [0usize; FORMER_NAMES];
            read_by(form, s, &mut at, &mut order, values)
        }
    }
}

// The same with a store for as many value lines as a sheet may have.
pub fn read(form: Form, s: &[u8], values: &mut [u32]) -> Result<usize, Refused>
    requires { length (form_of form) * most_lines ≤ length values.old }
    ensures { Read (form_of form) s.now values.old values.new result }
{
    read_within(form, s, values)
}
