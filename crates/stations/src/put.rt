// The stations into the summary table.
ghost use Rattle.std.specs.Prelude.{◌≡◌, ℕ, ◌≤◌, ◌<◌, ◌*◌, ◌+◌, length, get_or};
ghost use Rattle.judgement.specs.Limits.{most_lines};
ghost use Rattle.station_sums.specs.Summary.{filled, station_length};
ghost use Rattle.station_sums.specs.Sums.{Small, none, six, sixes, put_at};

use crate::STATION_LENGTH;
use judgement::LINES;
use station_sums::Sums;

// The six numbers of a station.
fn put_numbers(station: i64, s: Sums, part: &mut [i64])
    requires small { Small s }
    requires part_len { length part.old ≡ station_length }
    ensures { part.new ≡ six station s }
{
    part.copy_from_slice(&[
        station,
        s.seasons as i64,
        s.safe as i64,
        s.not_safe as i64,
        s.undecided as i64,
        s.season,
    ]);
}

// The station with index i.
fn put_station(station: i64, s: Sums, table: &mut [i64], i: usize)
    requires small { Small s }
    requires station_length_in_bounds { station_length * i + station_length ≤ length table.old }
    ensures { table.new ≡ put_at i (six station s) table.old }
{
    put_numbers(
        station,
        s,
        &mut table[STATION_LENGTH * i..STATION_LENGTH * (i + 1)],
    );
}

// The first count stations, one after the other.
pub fn put_stations(stations: [i64; LINES], sums: [Sums; LINES], count: usize, table: &mut [i64])
    requires count_le_most_lines { count ≤ most_lines }
    requires by_index { (i : ℕ) → i < count → Small (get_or sums i none) }
    requires count_in_bounds { station_length * count ≤ length table.old }
    ensures { table.new ≡ filled (sixes stations sums 0 count) table.old }
{
    for i in 0..count {
        put_station(stations[i], sums[i], table, i);
    }
}
