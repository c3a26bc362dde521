// What the programs of the gate share: they read numbers and parts of a text, print, and lend tables and buffers that show what they kept.
#![tactic(auto)]

mod held;
mod lists;
mod numerals;
mod parts;
mod print;
mod space;

pub use held::{bytes_kept, hold, hold_bytes, numbers_kept};
pub use lists::{natural, read, word};
pub use parts::first_part;
pub use print::{bytes, number, numbers, refused, too_long, unknown};
pub use space::{SPACE, empty_space};
