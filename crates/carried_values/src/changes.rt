// §8.3: what the former form cannot say: three times, two counts, a frequency other than 60 Hz.
ghost use Rattle.std.specs.Prelude.{◌≡◌, ◌*◌, ◌≤◌, length};
ghost use Rattle.case.specs.Columns.{name_count};
ghost use Rattle.case.specs.Parts.{form_of};
ghost use Rattle.tables.specs.Parts.{parts_of};
ghost use Rattle.judgement.specs.Limits.{most_lines};
ghost use Rattle.carried_values.specs.Values.{other};
ghost use Rattle.carried_values.specs.Changes.{line_change};
ghost use Rattle.carried_values.specs.Changes.{changes_from};
ghost use Rattle.carried_values.specs.Changes.{changes};

use crate::FORMER_HZ;
use case::{Form, NAMES, REFUSED_COUNTS, REFUSED_HERTZ, REFUSED_TIMES};
use refusal::Refused;

// Places of the times, the counts and the frequency among today's names, from 0.
const SHOCK: usize = 5;

const CLEAR: usize = 6;

const WIRE: usize = 7;

const ACROSS: usize = 12;

const ALONG: usize = 13;

const HZ: usize = 21;

// Refusals 9, 10 and 11 of a line.
fn line_change(line: usize, v: &[u32]) -> Result<(), Refused>
    requires { length v.now ≡ name_count }
    ensures { result ≡ line_change line (Ok tt) v.now }
{
    if v[SHOCK] != v[CLEAR] {
        return Err(Refused(REFUSED_TIMES, line, 0));
    }
    if v[CLEAR] != v[WIRE] {
        return Err(Refused(REFUSED_TIMES, line, 0));
    }
    if v[ACROSS] != v[ALONG] {
        return Err(Refused(REFUSED_COUNTS, line, 0));
    }
    if v[HZ] != FORMER_HZ {
        return Err(Refused(REFUSED_HERTZ, line, 0));
    }
    Ok(())
}

// The first of them on n lines of today's form.
fn changes_of(values: &[u32], n: usize) -> Result<(), Refused>
    requires n_in_bounds { name_count * n ≤ length values.now }
    requires n_le_most_lines { n ≤ most_lines }
    ensures { result ≡ changes_from 2 (parts_of name_count n values.now) }
{
    let mut i: usize = 0;
    while i < n {
        let a = NAMES * i;
        let b = a + NAMES;
        line_change(i + 2, &values[a..b])?;
        i += 1;
    }
    Ok(())
}

// On the way to a form: only the former form leaves something out.
pub fn first_change(form: Form, values: &[u32], n: usize) -> Result<(), Refused>
    requires n_in_bounds { length (form_of (other form)) * n ≤ length values.now }
    requires n_le_most_lines { n ≤ most_lines }
    ensures { result ≡ changes form (parts_of (length (form_of (other form))) n values.now) }
{
    match form {
        Form::Present => Ok(()),
        Form::Former => changes_of(values, n),
    }
}
