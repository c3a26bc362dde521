// The sums of each station from the table of rows, in one pass over the rows.
ghost use Rattle.std.specs.Prelude.{◌≡◌, ℕ, ◌≤◌, ◌<◌, ◌+◌, ◌*◌, length, get_or};
ghost use Rattle.row.specs.Row.{row_length};
ghost use Rattle.judgement.specs.Limits.{most_lines};
ghost use Rattle.station_sums.specs.Sums.{entry_at, none, sums_at};

use crate::adding::add;
use crate::{Entry, Sums};
use judgement::LINES;
use row::{MESH_UPPER, ROW_LENGTH, SEASON, VERDICT};

// Row i of the table.
fn entry(table: &[i64], i: usize) -> Entry
    requires { row_length * i + row_length ≤ length table.now }
    ensures { result ≡ entry_at table.now i }
{
    let row = &table[ROW_LENGTH * i..ROW_LENGTH * (i + 1)];
    Entry {
        season: row[SEASON],
        verdict: row[VERDICT],
        mesh: row[MESH_UPPER],
    }
}

// The sums of n rows, each added at the place of its station.
pub fn sum_rows(table: &[i64], n: usize, places: [usize; LINES]) -> [Sums; LINES]
    requires n_le_most_lines { n ≤ most_lines }
    requires n_in_bounds { row_length * n ≤ length table.now }
    requires by_index { (i : ℕ) → i < n → get_or places i 0 < most_lines }
    ensures { (j : ℕ) → j < most_lines → get_or result j none ≡ sums_at table.now places j n }
{
    let nothing = Sums {
        seasons: 0,
        safe: 0,
        not_safe: 0,
        undecided: 0,
        season: 0,
        mesh: 0,
    };
    let mut sums = [nothing; LINES];
    for i in 0..n {
        let place = places[i];
        sums[place] = add(sums[place], entry(table, i));
    }
    sums
}
