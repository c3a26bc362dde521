// The summary of a sheet's stations as text.
ghost use Rattle.std.specs.Prelude.{◌≤◌, length};
ghost use Rattle.writing.specs.Put.{Put};
ghost use Rattle.sheet_text.specs.Texts.{summary_text};
ghost use Rattle.row_text.specs.Room.{text_room};

use crate::TABLE;
use fields::put_refusal;
use judgement::LINES;
use refusal::Refused;
use row_text::{Shown, put_table};
use stations::{STATION_LENGTH, summary};

// Six numbers for each of as many stations as a sheet may have.
const STATIONS: usize = LINES * STATION_LENGTH;

// The six numbers of each station after a line of names, or the refusal.
pub fn put_summary(s: &[u8], out: &mut [u8]) -> usize
    requires { text_room ≤ length out.old }
    ensures { Put out.old 0 (summary_text s.now) out.new result }
{
    let mut rows = [0i64; TABLE];
    let mut beside = [0i64; STATIONS];
    match summary(s, &mut rows, &mut beside) {
        Ok(counts) => put_table(
            out,
            b"station,seasons,safe,unsafe,undecided,highest_mesh_season\n",
            &beside,
            counts.stations,
            STATION_LENGTH,
            Shown::Numbers,
        ),
        Err(Refused(why, line, column)) => put_refusal(out, why, line, column),
    }
}
