// What the decrement factor of a case gives: grid current and conductor size.
#![tactic(auto)]

mod grid;
mod metal;
mod size;

pub use grid::ig;
pub use metal::Metal;
pub use size::conductor_size;
