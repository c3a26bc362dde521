// The sums of each station of some rows. §7.1.
#![tactic(auto)]

mod adding;
mod gather;

pub use gather::sum_rows;

// What the summary reads of a row.
#[derive(Clone, Copy)]
pub struct Entry {
    pub season: i64,
    pub verdict: i64,
    // upper end, millivolts
    pub mesh: i64,
}

// The counts of one station, and its season with the highest upper mesh end.
#[derive(Clone, Copy)]
pub struct Sums {
    pub seasons: usize,
    pub safe: usize,
    pub not_safe: usize,
    pub undecided: usize,
    pub season: i64,
    pub mesh: i64,
}
