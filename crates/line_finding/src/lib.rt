// The checks of one value line.
#![tactic(auto)]

ghost use Rattle.std.specs.Prelude.{◌≡◌, cond, ◌≤◌, length, get_or};
ghost use Rattle.case.specs.Check.{finding};
ghost use Rattle.case.specs.Bounds.{Placed};
ghost use Rattle.case.specs.Order.{Ordered};
ghost use Rattle.case.specs.Parts.{form_of};
ghost use Rattle.line_finding.specs.Findings.{or_finding};
ghost use Rattle.line_finding.specs.Parts.{Keyable, packed, keys_of, seen_in, AtMost, Checks};

use case::{Finding, Form, check_values};
use line::read_values;

// What the checks of a value line find, with the column at fault.
#[derive(Clone, Copy)]
pub enum LineFinding {
    Sound,
    Form(usize),
    OutOfRange(usize),
    Disagreement(usize),
    Repeated,
}

// Station and season in one number.
pub fn key(station: u32, season: u32) -> u32
    requires { Keyable station season }
    ensures { result ≡ packed station season }
{
    station * 8 + season
}

// Whether a key is among the first n of a list, none of which is above `most`: where lines stand in the order of their stations none is
// looked through.
fn seen(keys: &[u32], n: usize, most: u32, key: u32) -> bool
    requires n_in_bounds { n ≤ length keys.now }
    requires at_most { AtMost keys.now n most }
    ensures { result ≡ seen_in key keys.now n }
{
    key <= most && keys[..n].contains(&key)
}

// Refusals 5, 6 and 7 of a line's values; the list holds the keys of the n lines before, none of which is above
// `most`.
fn values_finding<'a>(
    form: Form,
    at: &'a [usize],
    v: &'a [u32],
    keys: &'a [u32],
    n: usize,
    most: u32,
) -> LineFinding
    requires placed { Placed (length (form_of form)) at.now }
    requires v_len { length v.now ≡ length (form_of form) }
    requires n_in_bounds { n ≤ length keys.now }
    requires at_most { AtMost keys.now n most }
    ensures { result ≡ or_finding (finding (form_of form) at.now v.now)
        (cond (seen_in (packed (get_or v.now 0 0) (get_or v.now 1 0)) keys.now n)
        LineFinding.Repeated LineFinding.Sound) }
{
    match check_values(form, at, v) {
        Finding::OutOfRange(column) => LineFinding::OutOfRange(column),
        Finding::Disagreement(column) => LineFinding::Disagreement(column),
        Finding::Sound => {
            let k = key(v[0], v[1]);
            if seen(keys, n, most, k) {
                LineFinding::Repeated
            } else {
                LineFinding::Sound
            }
        }
    }
}

// Refusals 3, 5, 6 and 7 of one line, whose values go into row.
pub fn check_line<'a>(
    form: Form,
    line: &'a [u8],
    at: &'a [usize],
    order: &'a [usize],
    keys: &'a [u32],
    n: usize,
    most: u32,
    row: &mut [u32],
) -> LineFinding
    requires placed { Placed (length (form_of form)) at.now }
    requires ordered { Ordered (length (form_of form)) at.now order.now }
    requires n_in_bounds { n ≤ length keys.now }
    requires at_most { AtMost keys.now n most }
    requires row_len { length row.old ≡ length (form_of form) }
    ensures { Checks (form_of form) at.now (keys_of keys.now n) line.now result row.new }
{
    match read_values(line, order, row) {
        Err(column) => LineFinding::Form(column),
        Ok(()) => values_finding(form, at, row, keys, n, most),
    }
}
