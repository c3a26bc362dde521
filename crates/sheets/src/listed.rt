// The lines of a table: rows, stations or pairs.
use gate::numbers;
use row::{KCMIL, SEASON, STATION, VERDICT};

// What is listed of each row.
#[derive(Clone, Copy)]
pub enum Listing {
    Numbers,
    Verdicts,
}

// The word of a verdict's number.
fn verdict_word(verdict: i64) -> &'static str {
    match verdict {
        1 => "safe",
        2 => "unsafe",
        _ => "undecided",
    }
}

// Station, season, verdict and kcmil of a row.
fn verdict(rt: &impl Print, row: &[i64]) {
    if 4 <= row.len() {
        let word = verdict_word(row[VERDICT]);
        let _ = println!(rt; "{},{},{word},{}", row[STATION], row[SEASON], row[KCMIL]);
    }
}

fn line(rt: &impl Print, what: Listing, row: &[i64]) {
    match what {
        Listing::Numbers => numbers(rt, row),
        Listing::Verdicts => verdict(rt, row),
    }
}

// The first count rows of the table, each of so many numbers; none from one that the table has not whole.
pub fn lines(rt: &impl Print, what: Listing, table: &[i64], width: usize, count: usize) {
    let mut rest = table;
    for _ in 0..count {
        let Some((row, after)) = rest.split_at_checked(width) else {
            return;
        };
        line(rt, what, row);
        rest = after;
    }
}

// The line that says how much is as it was.
pub fn print_kept(rt: &impl Print, count: usize) {
    let _ = println!(rt; "kept,{count}");
}
