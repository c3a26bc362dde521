// Fields, lines of numbers and the line of a refusal as text in a lent buffer.
#![tactic(auto)]

mod numbered;

ghost use Rattle.std.specs.Prelude.{◌+◌, ◌≤◌, ◌<◌, length};
ghost use Rattle.writing.specs.Put.{Put};
ghost use Rattle.fields.specs.Fields.{word_of, field, line_of};

pub use numbered::{put_numbered, put_refusal};
use writing::{put_bytes, put_signed};

// The word of a verdict's number at an index; answers the index after it.
fn put_word(buf: &mut [u8], at: usize, z: i64) -> usize
    requires { at + length (word_of z) ≤ length buf.old }
    ensures { Put buf.old at (word_of z) buf.new result }
{
    if z == 1 {
        return put_bytes(buf, at, b"safe");
    }
    if z == 2 {
        return put_bytes(buf, at, b"unsafe");
    }
    put_bytes(buf, at, b"undecided")
}

// The number of a row with index i: by its word if i is word, else with its sign.
fn put_field(buf: &mut [u8], at: usize, word: usize, i: usize, z: i64) -> usize
    requires { at + length (field word i z) ≤ length buf.old }
    ensures { Put buf.old at (field word i z) buf.new result }
{
    if i == word {
        return put_word(buf, at, z);
    }
    put_signed(buf, at, z)
}

// A line of a row's numbers, with its byte 10.
pub fn put_fields(buf: &mut [u8], at: usize, row: &[i64], word: usize) -> usize
    requires row_nonzero { 0 < length row.now }
    requires row_in_bounds { at + length (line_of word row.now) ≤ length buf.old }
    ensures { Put buf.old at (line_of word row.now) buf.new result }
{
    let mut p = put_field(buf, at, word, 0, row[0]);
    for i in 1..row.len() {
        buf[p] = b',';
        p = put_field(buf, p + 1, word, i, row[i]);
    }
    buf[p] = b'\n';
    p + 1
}
