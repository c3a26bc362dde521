// A line of a word and numbers, such as that of a refusal.
ghost use Rattle.std.specs.Prelude.{◌+◌, ◌*◌, ◌≤◌, ◌∷◌, length};
ghost use Rattle.writing.specs.Decimal.{decimal};
ghost use Rattle.writing.specs.Put.{Put};
ghost use Rattle.fields.specs.Refusal.{numbered, refused_text};
ghost use Rattle.fields.specs.Refusal.{refusal_bytes};

use writing::{put_bytes, put_wide};

// A comma and a number at an index; answers the index after them.
fn put_next(buf: &mut [u8], at: usize, n: u64) -> usize
    requires { at + 1 + length (decimal n) ≤ length buf.old }
    ensures { Put buf.old at (44 ∷ decimal n) buf.new result }
{
    buf[at] = b',';
    put_wide(buf, at + 1, n)
}

// A word and numbers at the start of a buffer, with commas and byte 10; answers how many bytes that is.
pub fn put_numbered<'a>(buf: &mut [u8], word: &'a [u8], numbers: &'a [u64]) -> usize
    requires { length word.now + 21 * length numbers.now + 1 ≤ length buf.old }
    ensures { Put buf.old 0 (numbered word.now numbers.now) buf.new result }
{
    let mut p = put_bytes(buf, 0, word);
    for n in numbers {
        p = put_next(buf, p, *n);
    }
    buf[p] = b'\n';
    p + 1
}

// Number, line and column of a refusal at the start of a buffer; answers how many bytes that is.
pub fn put_refusal(buf: &mut [u8], why: u32, line: usize, column: usize) -> usize
    requires { refusal_bytes ≤ length buf.old }
    ensures { Put buf.old 0 (refused_text why line column) buf.new result }
{
    let numbers = [why as u64, line as u64, column as u64];
    put_numbered(buf, b"refused", &numbers)
}
