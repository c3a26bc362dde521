// The station summary with the rows. §7.1.
#![tactic(auto)]

mod copy;
mod put;

ghost use Rattle.stations.specs.Answer.{SummaryAnswered};

use appearance::find_stations;
use case::{REFUSED_SHORT, REFUSED_SUMMARY};
use copy::copy_numbers;
use judgement::LINES;
use put::put_stations;
use refusal::Refused;
use row::ROW_LENGTH;
use sheet::{Answer, sheet};
use station_sums::sum_rows;

// A row for each of as many value lines as a sheet may have.
const TABLE: usize = LINES * ROW_LENGTH;

// How many numbers a station has in the summary.
pub const STATION_LENGTH: usize = 6;

// How many rows and how many stations a sheet has.
#[derive(Clone, Copy)]
pub struct Counts {
    pub rows: usize,
    pub stations: usize,
}

// The answer to a sheet, its rows in their table, and the summary of its stations. The rows are computed in a separate table, so that
// nothing is written before the stations are counted.
pub fn summary(s: &[u8], rows: &mut [i64], beside: &mut [i64]) -> Result<Counts, Refused>
    ensures { SummaryAnswered s.now rows.old rows.new beside.old
        beside.new result }
{
    let mut own = [0i64; TABLE];
    match sheet(s, &mut own) {
        Answer::Refused(number, line, column) => Err(Refused(number, line, column)),
        Answer::Rows(n) => {
            let found = find_stations(&own, n);
            let m = found.count;
            let room = ROW_LENGTH * n;
            let beside_room = STATION_LENGTH * m;
            if rows.len() < room {
                return Err(Refused(REFUSED_SHORT, 0, 0));
            }
            if beside.len() < beside_room {
                return Err(Refused(REFUSED_SUMMARY, 0, 0));
            }
            copy_numbers(&own, room, rows);
            let places = found.places;
            let stations = found.stations;
            put_stations(stations, sum_rows(&own, n, places), m, beside);
            Ok(Counts {
                rows: n,
                stations: m,
            })
        }
    }
}
