// Release: which stations of a licence may be released on a sheet, and why the others are held.
#![tactic(auto)]

mod licence;
mod put;

ghost use Rattle.std.specs.Prelude.{◌*◌, ◌≤◌, ◌≡◌, length};
ghost use Rattle.case.specs.Columns.{name_count};
ghost use Rattle.judgement.specs.Limits.{most_lines};
ghost use Rattle.table_rows.specs.Rows.{StoredBounds, stored_cases};
ghost use Rattle.release.specs.Answer.{LinesReleased, ReleaseAnswered};

use case::{Form, REFUSED_LICENCE, REFUSED_RELEASE, REFUSED_STATION};
use judgement::{VALUES, read};
use licence::{bad_count, first_wrong};
use put::put_entries;
use refusal::Refused;

// How many numbers an entry of the licence has in the table.
pub const ENTRY_LENGTH: usize = 8;

// The answer to a licence after the sheet was read, whose n lines of values are sound.
fn release_lines<'a>(
    values: &'a [u32],
    n: usize,
    licence: &'a [u32],
    table: &mut [i64],
) -> Result<usize, Refused>
    requires n_le_most_lines { n ≤ most_lines }
    requires stored_bounds { StoredBounds values.now n }
    requires n_in_bounds { name_count * n ≤ length values.now }
    ensures { LinesReleased (stored_cases values.now n) licence.now table.old
        table.new result }
{
    if bad_count(licence.len()) {
        return Err(Refused(REFUSED_LICENCE, 0, 0));
    }
    match first_wrong(licence) {
        Some((place, column)) => Err(Refused(REFUSED_STATION, place, column)),
        None => {
            let entries = licence.len() / 3;
            if table.len() < ENTRY_LENGTH * entries {
                return Err(Refused(REFUSED_RELEASE, 0, 0));
            }
            put_entries(values, n, licence, table);
            Ok(entries)
        }
    }
}

// The same from the sheet, through a store with room for the values of as many lines as a sheet may have.
fn release_by<'a>(
    s: &'a [u8],
    licence: &'a [u32],
    values: &mut [u32],
    table: &mut [i64],
) -> Result<usize, Refused>
    requires { length values.old ≡ name_count * most_lines }
    ensures { ReleaseAnswered s.now licence.now table.old table.new result }
{
    let n = read(Form::Present, s, values)?;
    release_lines(values, n, licence, table)
}

// The count of stations in a licence, which has a station, its seasons and its conductor's cross-section in turn, or a refusal; and eight
// numbers an entry in the table.
pub fn release<'a>(s: &'a [u8], licence: &'a [u32], table: &mut [i64]) -> Result<usize, Refused>
    ensures { ReleaseAnswered s.now licence.now table.old table.new result }
{
    let mut values = [0u32; VALUES];
    release_by(s, licence, &mut values, table)
}
