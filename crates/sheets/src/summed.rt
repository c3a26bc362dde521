// The summary of a sheet's stations and its rows, in two tables.
ghost use Rattle.std.specs.Prelude.{◌≤◌};

use crate::length::length;
use crate::listed::{Listing, lines};
use crate::rows::{TABLE, row_lines};
use gate::{first_part, hold, numbers_kept, refused, unknown};
use judgement::LINES;
use refusal::Refused;
use stations::STATION_LENGTH;

// Room for the most stations.
const SUMMARY: usize = LINES * STATION_LENGTH;

// Two counts after a word.
fn counts(rt: &impl Print, word: &str, rows: usize, stations: usize) {
    let _ = println!(rt; "{word},{rows},{stations}");
}

// Prints the counts, the stations and all numbers of the rows, or the refusal.
fn answer(rt: &impl Print, s: &[u8], rows: &mut [i64], beside: &mut [i64]) {
    match stations::summary(s, rows, beside) {
        Ok(found) => {
            counts(rt, "summary", found.rows, found.stations);
            let _ = rt.println("station,seasons,safe,unsafe,undecided,highest_mesh_season");
            lines(rt, Listing::Numbers, beside, STATION_LENGTH, found.stations);
            row_lines(rt, Listing::Numbers, rows, found.rows);
        }
        Err(Refused(why, line, column)) => refused(rt, why, line, column),
    }
}

// The answer in the first numbers of two tables.
fn in_tables(rt: &impl Print, s: &[u8], rows: usize, stations: usize)
    requires rows_bound { rows ≤ TABLE }
    requires stations_bound { stations ≤ SUMMARY }
{
    let mut table = [0i64; TABLE];
    let mut summary = [0i64; SUMMARY];
    hold(&mut table);
    hold(&mut summary);
    answer(rt, s, &mut table[..rows], &mut summary[..stations]);
    counts(rt, "kept", numbers_kept(&table), numbers_kept(&summary));
}

// The answer for the two lengths: `unknown` where one is not a length or too large.
pub fn ask(rt: &impl Print, lengths: &[u8], s: &[u8]) {
    let (first, second) = first_part(lengths, b',');
    match (length(first), length(second)) {
        (Some(rows), Some(stations)) if rows <= TABLE && stations <= SUMMARY => {
            in_tables(rt, s, rows, stations)
        }
        _ => unknown(rt),
    }
}
