// Which stations of a licence may be released, in a table of eight numbers a station.
ghost use Rattle.std.specs.Prelude.{◌≤◌};

use crate::length::length;
use crate::listed::{Listing, lines, print_kept};
use crate::rows;
use gate::{first_part, hold, numbers_kept, read, refused, unknown};
use refusal::Refused;
use release::{ENTRY_LENGTH, release};

// More than the most stations need.
const TABLE: usize = 2080;

// More numbers than a licence may have.
const NUMBERS: usize = 780;

// The rows of the sheet, by its own question.
fn sheet_rows(rt: &impl Print, s: &[u8]) {
    let mut table = [0i64; rows::TABLE];
    rows::answer(rt, Listing::Numbers, s, &mut table);
}

fn answer(rt: &impl Print, s: &[u8], licence: &[u32], table: &mut [i64]) {
    let a = release(s, licence, table);
    match a {
        Ok(count) => {
            let _ = println!(rt; "released,{count}");
            lines(rt, Listing::Numbers, table, ENTRY_LENGTH, count);
            sheet_rows(rt, s);
        }
        Err(Refused(why, line, column)) => refused(rt, why, line, column),
    }
}

// The answer in the first numbers of a table, and what the whole of it kept.
fn in_table(rt: &impl Print, s: &[u8], licence: &[u32], room: usize)
    requires { room ≤ TABLE }
{
    let mut table = [0i64; TABLE];
    hold(&mut table);
    answer(rt, s, licence, &mut table[..room]);
    print_kept(rt, numbers_kept(&table));
}

// The answer to a licence: `unknown` where the table has no such length.
fn on_licence(rt: &impl Print, s: &[u8], licence: &[u32], field: &[u8]) {
    match length(field) {
        Some(room) if room <= TABLE => in_table(rt, s, licence, room),
        _ => unknown(rt),
    }
}

// The answer for the length of the table, to a line with the licence and the sheet after it: `unknown` where the line is not a list
// of 32-bit numbers.
pub fn ask(rt: &impl Print, field: &[u8], s: &[u8]) {
    let (line, sheet) = first_part(s, b'\n');
    let mut space = [0u32; NUMBERS];
    match read(line, 0..=i64::from(u32::MAX), &mut space) {
        Some(licence) => on_licence(rt, sheet, licence, field),
        None => unknown(rt),
    }
}
