// The row of a case.
#![tactic(auto)]

mod parts;
mod put;
mod work;

use decision::Verdict;
use interval::Interval;
pub use parts::{driven_parts, fixed_parts};
pub use put::{put_row, row_numbers};
pub use work::work_row;

// How many numbers a row has.
pub const ROW_LENGTH: usize = 20;

// Places in a row: station, season, verdict, size in kcmil, the lower ends of tolerable touch and step, the upper ends of mesh and step
// voltage.
pub const STATION: usize = 0;

pub const SEASON: usize = 1;

pub const VERDICT: usize = 2;

pub const KCMIL: usize = 3;

pub const TOLERABLE_TOUCH_LOWER: usize = 8;

pub const TOLERABLE_STEP_LOWER: usize = 10;

pub const MESH_UPPER: usize = 13;

pub const STEP_UPPER: usize = 15;

// The numbers of a row: a pair is two of them, lower end first.
#[derive(Clone, Copy)]
pub struct Row {
    pub station: i64,
    pub season: i64,
    pub verdict: Verdict,
    // kcmil
    pub size: i64,
    // microamperes
    pub current: Interval,
    // billionths
    pub factor: Interval,
    // millivolts
    pub tolerable_touch: Interval,
    pub tolerable_step: Interval,
    pub mesh: Interval,
    pub step: Interval,
    // micro-ohms
    pub resistance: Interval,
    // millivolts
    pub rise: Interval,
}

// What the verdict of a case needs that its fault current does not change.
#[derive(Clone, Copy)]
pub struct Fixed {
    // Df, billionths
    pub factor: Interval,
    // millivolts
    pub tolerable_touch: Interval,
    pub tolerable_step: Interval,
    // n, 10^-7
    pub number: Interval,
    // LM, micrometres, and Km, 10^-7
    pub lm: Interval,
    pub km: Interval,
    // LS, twentieths of a millimetre, and Ks, 10^-7 per metre
    pub ls: u64,
    pub ks: Interval,
}

// What its fault current drives.
#[derive(Clone, Copy)]
pub struct Driven {
    // microamperes
    pub current: Interval,
    // millivolts
    pub mesh: Interval,
    pub step: Interval,
}
