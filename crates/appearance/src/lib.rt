// The stations of a table of rows by first appearance.
#![tactic(auto)]

ghost use Rattle.std.specs.Prelude.{◌≡◌, false, ◌≤◌, ◌*◌, length};
ghost use Rattle.row.specs.Row.{row_length};
ghost use Rattle.judgement.specs.Limits.{most_lines};
ghost use Rattle.station_sums.specs.Summary.{same_z};
ghost use Rattle.appearance.specs.Places.{mark_of, NotMarked, Marked, place_of, Places};

use judgement::LINES;
use row::ROW_LENGTH;

// The stations of some rows by first appearance, of which there are count, and the place of each row's station among them.
#[derive(Clone, Copy)]
pub struct Found {
    pub stations: [i64; LINES],
    pub places: [usize; LINES],
    pub count: usize,
}

// The low sixteen bits of a station.
fn mark(station: i64) -> u16
    ensures { result ≡ mark_of station }
{
    (station.max(0) % 65536) as u16
}

// Whether a mark may be among some. It does not stop at the first, so that several are compared at once.
fn is_marked(marks: &[u16], mark: u16) -> bool
    ensures { result ≡ false → NotMarked marks.now (length marks.now) mark }
{
    let mut found = false;
    for here in marks {
        found |= *here == mark;
    }
    found
}

// The place of a station among those known; the marks show quickly that it is new.
fn place_of(known: &[i64], marks: &[u16], station: i64) -> Option<usize>
    requires { Marked known.now marks.now (length known.now) }
    ensures { result ≡ place_of station known.now }
{
    if !is_marked(marks, mark(station)) {
        return None;
    }
    known.iter().position(
        |here| -> bool
            ensures { result ≡ same_z station here.now }
        { *here == station },
    )
}

// The stations of n rows.
pub fn find_stations(table: &[i64], n: usize) -> Found
    requires n_le_most_lines { n ≤ most_lines }
    requires n_in_bounds { row_length * n ≤ length table.now }
    ensures { Places table.now n result.stations result.places result.count }
{
    let mut known = [0i64; LINES];
    let mut marks = [0u16; LINES];
    let mut places = [0usize; LINES];
    let mut count = 0;
    for i in 0..n {
        let station = table[ROW_LENGTH * i];
        match place_of(&known[..count], &marks[..count], station) {
            Some(place) => {
                places[i] = place;
            }
            None => {
                places[i] = count;
                known[count] = station;
                marks[count] = mark(station);
                count += 1;
            }
        }
    }
    Found {
        stations: known,
        places,
        count,
    }
}
