// The sheet asked by a program in C, and the convention (§11.1) of all that C asks: the answer is a count of 0 or more, or a refusal's
// number made negative, with line and column in a lent place of two numbers and every other buffer as it was.
// The crate `c_entry_c` exports the entries.
#![tactic(auto)]

ghost use Rattle.std.specs.Prelude.{◌≤◌, ◌≡◌, true, length};
ghost use Rattle.text.specs.Text.{lines_of};
ghost use Rattle.case.specs.declared.Form.TheVariants.{Present};
ghost use Rattle.case.specs.Parts.{form_of};
ghost use Rattle.judgement.specs.Read.{Room};
ghost use Rattle.c_entry.specs.Buffer.{InBytes, Answered};
ghost use Rattle.c_entry.specs.Buffer.{AnsweredAt};

use c_rows::{ROW_BYTES, write_rows};
use c_tell::{put_place, signed_answer};
use case::{Form, NAMES, REFUSED_SHORT};
use judgement::{VALUES, read_within};
use refusal::Refused;
use text::count_lines;

// A sheet of at most so many bytes and lines, that of the names among them, is short: to clear a store for as many lines as a sheet may
// have would take longer than all else that is done for it.
const SHORT_BYTES: usize = 1024;

const SHORT_LINES: usize = 8;

fn is_short(s: &[u8]) -> bool
    ensures { result ≡ true → length (lines_of s.now) ≤ 8 }
{
    if SHORT_BYTES < s.len() {
        return false;
    }
    count_lines(s) <= SHORT_LINES
}

// The answer to a sheet, and its rows as bytes in the buffer, through a store with room for its lines.
fn fill_buffer(s: &[u8], values: &mut [u32], buffer: &mut [u8]) -> Result<usize, Refused>
    requires { Room (form_of Present) (lines_of s.now) values.old }
    ensures { InBytes s.now buffer.old buffer.new result }
{
    let n = read_within(Form::Present, s, values)?;
    if buffer.len() < ROW_BYTES * n {
        return Err(Refused(REFUSED_SHORT, 0, 0));
    }
    write_rows(values, n, buffer);
    Ok(n)
}

// The answer to a sheet, and its rows as bytes in the buffer.
fn rows_in_bytes(s: &[u8], buffer: &mut [u8]) -> Result<usize, Refused>
    ensures { InBytes s.now buffer.old buffer.new result }
{
    if is_short(s) {
        let mut values = [0u32; SHORT_LINES * NAMES];
        return fill_buffer(s, &mut values, buffer);
    }
    let mut values = [0u32; VALUES];
    fill_buffer(s, &mut values, buffer)
}

// The count of rows, or the refusal's number made negative. The rows are in the buffer, each number as eight bytes; a refusal leaves it
// as it was.
pub fn hocsimbur_rows(s: &[u8], buffer: &mut [u8]) -> i64
    ensures { Answered s.now buffer.old buffer.new result }
{
    let answer = rows_in_bytes(s, buffer);
    signed_answer(answer)
}

// The same, and where it is a refusal its line and column in the first two numbers of `place`.
pub fn hocsimbur_rows_at(s: &[u8], buffer: &mut [u8], place: &mut [usize]) -> i64
    ensures { AnsweredAt s.now buffer.old buffer.new place.old place.new result }
{
    let answer = rows_in_bytes(s, buffer);
    put_place(answer, place);
    signed_answer(answer)
}
