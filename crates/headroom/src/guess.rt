// A guess at the greatest safe fault current. Mesh and step voltage are nearly in proportion to it; the search is right with any guess.
use crate::search::MOST_FAULT;
use row::{Driven, Fixed};

// In mV; no tolerable voltage is so high.
const MOST_TOLERABLE: u64 = 1000000000;

// An end, or 0 where it is below.
fn or_nought(end: i64) -> u64 {
    if end < 0 {
        return 0;
    }
    end as u64
}

// The fault current at which a voltage would be what is tolerable, in proportion to its value at a fault current.
fn in_proportion(fault: u32, tolerable: u64, voltage: u64) -> u32 {
    if voltage == 0 {
        return MOST_FAULT;
    }
    if MOST_TOLERABLE < tolerable {
        return MOST_FAULT;
    }
    let share = (fault as u64) * tolerable / voltage;
    if (MOST_FAULT as u64) < share {
        return MOST_FAULT;
    }
    share as u32
}

// The lesser of what mesh and step voltage give.
pub fn guess(fault: u32, fixed: Fixed, driven: Driven) -> u32 {
    let touch = or_nought(fixed.tolerable_touch.lower);
    let step = or_nought(fixed.tolerable_step.lower);
    let by_mesh = in_proportion(fault, touch, or_nought(driven.mesh.upper));
    let by_step = in_proportion(fault, step, or_nought(driven.step.upper));
    if by_mesh < by_step {
        return by_mesh;
    }
    by_step
}
