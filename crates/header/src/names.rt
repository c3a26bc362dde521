// The names of the columns.
ghost use Rattle.std.specs.Prelude.{◌≡◌, ◌<◌, length, map};
ghost use Rattle.case.specs.Columns.{all_columns};
ghost use Rattle.case.specs.Parts.{form_of};
ghost use Rattle.header.specs.Parts.{name_at, in_code, found_name};

use case::{ALL_NAMES, Form, name_count, place};

// A name: a fixed byte string, and how many of its bytes are the name. A table of slices would hold pointers, which take four bytes in
// WebAssembly and eight in the bitcode that the library for it is made of.
#[derive(Clone, Copy)]
pub struct Spelling(pub [u8; 7], pub usize);

// The names of today's form in the order of its table, then those of the former form that are not among them.
static TEXTS: [Spelling; ALL_NAMES] = [
    Spelling(*b"station", 7),
    Spelling(*b"season ", 6),
    Spelling(*b"soil   ", 4),
    Spelling(*b"layer  ", 5),
    Spelling(*b"thick  ", 5),
    Spelling(*b"shock  ", 5),
    Spelling(*b"clear  ", 5),
    Spelling(*b"wire   ", 4),
    Spelling(*b"body   ", 4),
    Spelling(*b"fault  ", 5),
    Spelling(*b"split  ", 5),
    Spelling(*b"xr     ", 2),
    Spelling(*b"across ", 6),
    Spelling(*b"along  ", 5),
    Spelling(*b"space  ", 5),
    Spelling(*b"depth  ", 5),
    Spelling(*b"dia    ", 3),
    Spelling(*b"rods   ", 4),
    Spelling(*b"rodlen ", 6),
    Spelling(*b"place  ", 5),
    Spelling(*b"metal  ", 5),
    Spelling(*b"hz     ", 2),
    Spelling(*b"ms     ", 2),
    Spelling(*b"lines  ", 5),
];

// That table.
fn all_names() -> &'static [Spelling; ALL_NAMES]
    ensures { result.now ≡ map in_code all_columns }
{
    &TEXTS
}

// The name with index k of a form.
pub fn name(form: Form, k: usize) -> &'static [u8]
    requires { k < length (form_of form) }
    ensures { result.now ≡ name_at (form_of form) k }
{
    let entry = &all_names()[place(form, k)];
    &entry.0[..entry.1]
}

// The index of a field's name, by a search through the form; none where the field is none of the names.
fn search(form: Form, s: &[u8]) -> Option<usize>
    ensures { result ≡ found_name (form_of form) s.now }
{
    (0..name_count(form)).position(|k| s == name(form, k))
}

// The index of a field's name. The one that is expected, with index k, is tried first: sheets mostly have the names in the order of the
// table.
pub fn name_of(form: Form, k: usize, s: &[u8]) -> Option<usize>
    requires { k < length (form_of form) }
    ensures { result ≡ found_name (form_of form) s.now }
{
    if s == name(form, k) {
        return Some(k);
    }
    search(form, s)
}
