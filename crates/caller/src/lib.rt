// A crate that calls the core.
#![tactic(auto)]

ghost use Rattle.caller.specs.Release.{Released};
ghost use Rattle.caller.specs.Later.{StaysReleased};
ghost use Rattle.caller.specs.Margins.{MarginsTold};

use hocsimbur::{Case, Verdict};

// Whether a yard may be released for a season.
pub fn may_release(c: Case) -> bool
    ensures { Released c result }
{
    let Ok(row) = hocsimbur::row(c) else {
        return false;
    };
    let verdict = row.verdict;
    match verdict {
        Verdict::Safe => true,
        Verdict::Unsafe => false,
        Verdict::Undecided => false,
    }
}

// The least fault current of a case, in A.
const LEAST_FAULT: u32 = 100;

// Whether a yard may be released and stays so with the fault current of a later study, all else equal. It is not computed again: less
// current cannot make it unsafe, and for more current nothing is claimed.
pub fn stays_released(c: Case, fault: u32) -> bool
    ensures { StaysReleased c fault result }
{
    if fault < LEAST_FAULT {
        return false;
    }
    if c.fault < fault {
        return false;
    }
    may_release(c)
}

// The margins of a case asked alone, or None of a case that is refused.
pub fn margins_of(c: Case) -> Option<(i64, i64)>
    ensures { MarginsTold c result }
{
    let Ok(row) = hocsimbur::row(c) else {
        return None;
    };
    let numbers = hocsimbur::row_numbers(row);
    hocsimbur::margins(&numbers)
}
