// The values of a case in the other form.
ghost use Rattle.std.specs.Prelude.{◌≡◌, ◌*◌, ◌≤◌, ◌<◌, length, get_or};
ghost use Rattle.case.specs.Parts.{form_of};
ghost use Rattle.carried_values.specs.Values.{other, carried};
ghost use Rattle.carried_values.specs.Parts.{places_in, Converted};

use crate::FORMER_HZ;
use case::{FORMER_NAMES, Form, NAMES, name_count};

pub fn other_form(form: Form) -> Form
    ensures { result ≡ other form }
{
    match form {
        Form::Present => Form::Former,
        Form::Former => Form::Present,
    }
}

// The places of today's values among the former ones: one time for the three, one count for both. The frequency is not among them: its
// place is past the last.
static AMONG_FORMER: [usize; NAMES] = [
    0, 1, 2, 3, 4, 5, 5, 5, 6, 7, 8, 9, 10, 10, 11, 12, 13, 14, 15, 16, 17, 18,
];

// The places of the former values among today's.
static AMONG_PRESENT: [usize; FORMER_NAMES] = [
    0, 1, 2, 3, 4, 5, 8, 9, 10, 11, 12, 14, 15, 16, 17, 18, 19, 20,
];

// Where value k of a form stands among those of the other.
fn source(form: Form, k: usize) -> usize
    requires { k < length (form_of form) }
    ensures { result ≡ get_or (places_in form) k 0 }
{
    match form {
        Form::Present => AMONG_FORMER[k],
        Form::Former => AMONG_PRESENT[k],
    }
}

// Value k of a case in a form, from its values in the other.
fn carried_value(form: Form, v: &[u32], k: usize) -> u32
    requires v_len { length v.now ≡ length (form_of (other form)) }
    requires k_in_bounds { k < length (form_of form) }
    ensures { result ≡ get_or (carried form v.now) k 0 }
{
    v.get(source(form, k)).copied().unwrap_or(FORMER_HZ)
}

// The values of a case in a form, from those in the other.
fn convert_line(form: Form, v: &[u32], row: &mut [u32])
    requires v_len { length v.now ≡ length (form_of (other form)) }
    requires row_len { length row.old ≡ length (form_of form) }
    ensures { row.new ≡ carried form v.now }
{
    for (k, x) in row.iter_mut().enumerate() {
        *x = carried_value(form, v, k);
    }
}

// n lines of values in a form, from those in the other.
pub fn convert(form: Form, values: &[u32], n: usize, carried: &mut [u32])
    requires n_in_bounds { length (form_of (other form)) * n ≤ length values.now }
    requires n_in_bounds_2 { length (form_of form) * n ≤ length carried.old }
    ensures { Converted form n values.now carried.old carried.new }
{
    let k = name_count(form);
    let j = name_count(other_form(form));
    for i in 0..n {
        let a = j * i;
        let c = k * i;
        convert_line(form, &values[a..a + j], &mut carried[c..c + k]);
    }
}
