// The values of a case in the other form, and what the former form cannot say. §8.2, §8.3.
#![tactic(auto)]

mod changes;
mod values;

pub use changes::first_change;
pub use values::{convert, other_form};

// The frequency of every case in the former form.
const FORMER_HZ: u32 = 60;
