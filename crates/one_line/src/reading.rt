// The values of the one value line of a sheet, or why it is refused.
ghost use Rattle.std.specs.Prelude.{◌≡◌, length};
ghost use Rattle.text.specs.Text.{lines_of};
ghost use Rattle.case.specs.Columns.{name_count};
ghost use Rattle.case.specs.Order.{Distinct};
ghost use Rattle.one_line.specs.Reading.{ValuesRead, SheetRead};

use case::{Form, NAMES, REFUSED_FORM, REFUSED_LINES, REFUSED_NAME, REFUSED_TEXT};
use header::read_header;
use judgement::bad_text;
use line::read_values;
use refusal::Refused;
use text::{find, skip};

// Refusals 4 and 3; s holds what follows the line of names.
fn read_value_line<'a>(s: &'a [u8], order: &'a [usize], values: &mut [u32]) -> Result<(), Refused>
    requires distinct { Distinct name_count order.now }
    requires values_len { length values.old ≡ name_count }
    ensures { ValuesRead (lines_of s.now) order.now values.new result }
{
    if s.len() == 0 {
        return Err(Refused(REFUSED_LINES, 2, 0));
    }
    let e = find(s, 10);
    if skip(e, s.len()) < s.len() {
        return Err(Refused(REFUSED_LINES, 3, 0));
    }
    match read_values(&s[..e], order, values) {
        Err(column) => Err(Refused(REFUSED_FORM, 2, column)),
        Ok(()) => Ok(()),
    }
}

// Refusals 1, 2, 4 and 3 of a sheet.
pub fn read_one(s: &[u8], values: &mut [u32]) -> Result<(), Refused>
    requires { length values.old ≡ name_count }
    ensures { SheetRead s.now values.new result }
{
    if bad_text(s) {
        return Err(Refused(REFUSED_TEXT, 0, 0));
    }
    let e = find(s, 10);
    let mut at = [0usize; NAMES];
    let mut order = [0usize; NAMES];
    match read_header(Form::Present, &s[..e], &mut at, &mut order) {
        Err(column) => Err(Refused(REFUSED_NAME, 1, column)),
        Ok(()) => {
            let next = skip(e, s.len());
            read_value_line(&s[next..], &order, values)
        }
    }
}
