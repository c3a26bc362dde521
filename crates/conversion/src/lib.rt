// Sheets of the former names carried over to today's, and back. §8.2, §8.3.
#![tactic(auto)]

mod names;

ghost use Rattle.case.specs.declared.Form.TheVariants.{Present, Former};
ghost use Rattle.case.specs.Parts.{form_of};
ghost use Rattle.std.specs.Prelude.{◌*◌, ◌≤◌, ◌≡◌, length, true};
ghost use Rattle.tables.specs.Parts.{parts_of};
ghost use Rattle.judgement.specs.Limits.{most_lines};
ghost use Rattle.writing.specs.Put.{WrittenFirst};
ghost use Rattle.carried_values.specs.Values.{other};
ghost use Rattle.writing.specs.Text.{all_lines};
ghost use Rattle.conversion.specs.Sheet.{sheet_of};
ghost use Rattle.conversion.specs.Answer.{Answered};

use carried_values::{convert, first_change, other_form};
use case::{Form, REFUSED_SHORT, name_count};
use judgement::{VALUES, read};
use names::{NAMES_BYTES, put_names};
use refusal::Refused;
use writing::write_sheet;

// The sheet of n lines of values in a form; answers the count of its bytes, or none where the buffer is too short.
fn write_form(form: Form, buffer: &mut [u8], values: &[u32], n: usize) -> Option<usize>
    requires n_in_bounds { length (form_of form) * n ≤ length values.now }
    requires n_le_most_lines { n ≤ most_lines }
    requires values_value { all_lines (length (form_of form)) (parts_of (length (form_of form)) n values.now) ≡ true }
    ensures { WrittenFirst (sheet_of (form_of form) (parts_of (length (form_of form)) n values.now)) buffer.old
        buffer.new result }
{
    let k = name_count(form);
    let mut line = [0u8; NAMES_BYTES];
    let m = put_names(form, &mut line);
    write_sheet(buffer, &line[..m], values, k, n)
}

// A sheet of the other form carried over to a form: the count of bytes written, or a refusal.
fn carry_to(form: Form, s: &[u8], buffer: &mut [u8]) -> Result<usize, Refused>
    ensures { Answered form s.now buffer.old buffer.new result }
{
    let mut values = [0u32; VALUES];
    let n = read(other_form(form), s, &mut values)?;
    first_change(form, &values, n)?;
    let mut carried = [0u32; VALUES];
    convert(form, &values, n, &mut carried);
    match write_form(form, buffer, &carried, n) {
        None => Err(Refused(REFUSED_SHORT, 0, 0)),
        Some(k) => Ok(k),
    }
}

// A sheet of the former names becomes one of today's, whose bytes are counted.
pub fn carry(s: &[u8], buffer: &mut [u8]) -> Result<usize, Refused>
    ensures { Answered Present s.now buffer.old buffer.new result }
{
    carry_to(Form::Present, s, buffer)
}

// A sheet of today's names becomes one of the former ones, whose bytes are counted.
pub fn carry_back(s: &[u8], buffer: &mut [u8]) -> Result<usize, Refused>
    ensures { Answered Former s.now buffer.old buffer.new result }
{
    carry_to(Form::Former, s, buffer)
}
