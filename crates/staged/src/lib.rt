// The split of the fault current from a staged test. §9.2.
#![tactic(auto)]

mod check;
mod grid;

ghost use Rattle.std.specs.Prelude.{◌≡◌};
ghost use Rattle.staged.specs.Answer.{answer};

use check::{any_outside, bad_count, none_injected};
use grid::measured;
use refusal::Refused;

// What a staged test shows: the grid's in-phase and quadrature part in milliamperes, and the split in per mille.
#[derive(Clone, Copy)]
pub struct GridShare {
    pub in_phase: i64,
    pub quadrature: i64,
    pub per_mille: u64,
}

// A wrong count of numbers, a part out of its range, no injected current.
const REFUSED_TEST: u32 = 17;

const REFUSED_PART: u32 = 18;

const REFUSED_NO_CURRENT: u32 = 19;

// Grid current and split from a test's numbers: the injected current's in-phase and quadrature part in milliamperes, then
// those of each branch.
pub fn split(parts: &[i64]) -> Result<GridShare, Refused>
    ensures { result ≡ answer parts.now }
{
    if bad_count(parts.len()) {
        return Err(Refused(REFUSED_TEST, 0, 0));
    }
    let outside = any_outside(parts);
    let none = none_injected(parts);
    if outside {
        return Err(Refused(REFUSED_PART, 0, 0));
    }
    if none {
        return Err(Refused(REFUSED_NO_CURRENT, 0, 0));
    }
    Ok(measured(parts))
}
