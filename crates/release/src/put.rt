// The eight numbers of each entry into the table.
ghost use Rattle.std.specs.Prelude.{◌≡◌, ◌≤◌, ◌<◌, ◌+◌, ◌*◌, ◌/◌, length};
ghost use Rattle.tables.specs.Parts.{Written};
ghost use Rattle.case.specs.Columns.{name_count};
ghost use Rattle.judgement.specs.Limits.{most_lines};
ghost use Rattle.table_rows.specs.Rows.{StoredBounds, stored_cases};
ghost use Rattle.release.specs.Licence.{entries_of};
ghost use Rattle.whole.specs.Count.{one};
ghost use Rattle.release.specs.Entry.{entry_length, release_of, station_numbers, eight};
ghost use Rattle.tally.specs.Tally.{Small};
ghost use Rattle.release.specs.Answer.{Filled};

use crate::ENTRY_LENGTH;
use tally::{Tally, count_lines, first_line, missing_seasons, released_or_held, reported_fault};

fn put_numbers(station: u32, without: u32, t: Tally, part: &mut [i64])
    requires without_bound { without ≤ 4 }
    requires small { Small t }
    requires part_len { length part.old ≡ entry_length }
    ensures { part.new ≡ eight station without t }
{
    part.copy_from_slice(&[
        station as i64,
        released_or_held(without, t) as i64,
        without as i64,
        t.not_safe as i64,
        t.undecided as i64,
        t.other as i64,
        t.small as i64,
        reported_fault(t) as i64,
    ]);
}

// The entry with index i.
fn put_entry(
    values: &[u32],
    n: usize,
    station: u32,
    seasons: u32,
    area: u32,
    table: &mut [i64],
    i: usize,
)
    requires n_le_most_lines { n ≤ most_lines }
    requires stored_bounds { StoredBounds values.now n }
    requires n_in_bounds { name_count * n ≤ length values.now }
    requires entry_length_in_bounds { entry_length * i + entry_length ≤ length table.old }
    ensures { Written entry_length i (station_numbers station seasons area (stored_cases values.now n)) table.old
        table.new }
{
    let yard = first_line(values, n, station);
    let t = count_lines(values, n, station, yard, area);
    let without = missing_seasons(seasons, t);
    let part = &mut table[ENTRY_LENGTH * i..ENTRY_LENGTH * (i + 1)];
    put_numbers(station, without, t, part);
}

// Every entry of the licence, one after the other.
pub fn put_entries<'a>(values: &'a [u32], n: usize, licence: &'a [u32], table: &mut [i64])
    requires n_le_most_lines { n ≤ most_lines }
    requires stored_bounds { StoredBounds values.now n }
    requires n_in_bounds { name_count * n ≤ length values.now }
    requires licence_in_bounds { entry_length * (length licence.now / 3) ≤ length table.old }
    ensures { Filled (release_of (entries_of licence.now) (stored_cases values.now n)) table.old
        table.new }
{
    for i in 0..licence.len() / 3 {
        let station = licence[3 * i];
        let seasons = licence[3 * i + 1];
        let area = licence[3 * i + 2];
        put_entry(values, n, station, seasons, area, table, i);
    }
}
