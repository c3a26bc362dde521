// What is counted of the lines of a station, line by line: for the release of a licence.
#![tactic(auto)]

mod add;
mod seasons;
mod station;

pub use seasons::{missing_seasons, released_or_held, reported_fault};
pub use station::{count_lines, first_line};

// What is counted of the lines of a station.
#[derive(Clone, Copy)]
pub struct Tally {
    pub lines: u32,
    // whether seasons 1 to 4 have a line
    pub first: bool,
    pub second: bool,
    pub third: bool,
    pub fourth: bool,
    pub not_safe: u32,
    pub undecided: u32,
    // lines of another yard than the first
    pub other: u32,
    // lines whose conductor is too small
    pub small: u32,
    // the greatest fault current at which every line is safe, in amperes, or 0
    pub fault: u32,
}
