// The line of names of a form, from the one table of names.
ghost use Rattle.std.specs.Prelude.{◌≤◌, ◌≡◌, cond, ltb, length};
ghost use Rattle.case.specs.Parts.{form_of};
ghost use Rattle.writing.specs.Put.{Put};
ghost use Rattle.conversion.specs.Sheet.{names_line};

use case::{Form, name_count};
use header::name;
use writing::put_bytes;

// The bytes of the longest line of names, that of today's form.
pub const NAMES_BYTES: usize = 125;

// The byte before name k of n: a comma, or byte 10 where the names are at their end.
fn parting(k: usize, n: usize) -> u8
    ensures { result ≡ cond (ltb k n) 44 10 }
{
    if k < n { b',' } else { b'\n' }
}

// The line of names of a form, with its byte 10; answers how many bytes it has.
pub fn put_names(form: Form, line: &mut [u8]) -> usize
    requires { length (names_line (form_of form)) ≤ length line.old }
    ensures { Put line.old 0 (names_line (form_of form)) line.new result }
{
    let n = name_count(form);
    let mut p: usize = 0;
    for k in 0..n {
        p = put_bytes(line, p, name(form, k));
        line[p] = parting(k + 1, n);
        p += 1;
    }
    p
}
