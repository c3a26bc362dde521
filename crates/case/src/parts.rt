// The checks of the values of a form: ranges, and which values must agree.
ghost use Rattle.std.specs.Prelude.{◌≡◌, length};
ghost use Rattle.case.specs.Check.{left_of, out_of_range, agree as agreeing, disagreement as disagreeing};
ghost use Rattle.case.specs.Parts.{form_of, RodsPlace};

use crate::range::range_of;
use crate::{Finding, Form};

// The places of layer and thick among the names of either form, from 0.
const LAYER: usize = 3;

const THICK: usize = 4;

// The place of rods; rodlen and place follow it.
fn rods_place(form: Form) -> usize
    ensures { RodsPlace form result }
{
    match form {
        Form::Present => 17,
        Form::Former => 14,
    }
}

// The lesser of two columns, where 0 is none.
fn left_of(a: usize, c: usize) -> usize
    ensures { result ≡ left_of a c }
{
    if c == 0 || a <= c { a } else { c }
}

// The leftmost column whose value is out of its range, or 0.
pub fn out_of_range(form: Form, at: &[usize], v: &[u32]) -> usize
    requires at_len { length at.now ≡ length (form_of form) }
    requires v_len { length v.now ≡ length (form_of form) }
    ensures { result ≡ out_of_range (form_of form) at.now v.now }
{
    let mut c: usize = 0;
    for k in (0..v.len()).rev() {
        if !range_of(form, k).holds(v[k]) {
            c = left_of(at[k], c);
        }
    }
    c
}

// Both 0 or both not 0.
fn agree(a: u32, b: u32) -> bool
    ensures { result ≡ agreeing a b }
{
    (a == 0) == (b == 0)
}

// Layer and thick agree, then rods, rodlen and place.
pub fn disagreement<'a>(form: Form, at: &'a [usize], v: &'a [u32]) -> Finding
    requires at_len { length at.now ≡ length (form_of form) }
    requires v_len { length v.now ≡ length (form_of form) }
    ensures { result ≡ disagreeing (form_of form) at.now v.now }
{
    let r = rods_place(form);
    let layer = v[LAYER];
    let thick = v[THICK];
    let rods = v[r];
    let rodlen = v[r + 1];
    let place = v[r + 2];
    if !agree(layer, thick) {
        return Finding::Disagreement(at[LAYER]);
    }
    if !agree(rods, rodlen) {
        return Finding::Disagreement(at[r]);
    }
    if agree(rods, place) {
        return Finding::Sound;
    }
    Finding::Disagreement(at[r])
}
