// One yard of the search: its case and its verdict.
ghost use Rattle.std.specs.Prelude.{◌≡◌, ◌≤◌};
ghost use Rattle.case.specs.Bounds.{Bounds};
ghost use Rattle.row.specs.Parts.{fixed_of, driven_of};
ghost use Rattle.yards.specs.Yards.{fits as fitting, yard as yard_of, trial as trial_of, means_safe, is_safe};

use case::Case;
use decision::{Verdict, verdict_of};
use row::{Driven, Fixed, driven_parts, fixed_parts};

// The spacing's range.
const LEAST_SPACE: u32 = 2500;

const MOST_SPACE: u32 = 30000;

// Whether the side is a whole number of spaces within their range.
pub fn fits(side: u32, lines: u32) -> bool
    requires { 2 ≤ lines }
    ensures { result ≡ fitting side lines }
{
    let gaps = lines - 1;
    let space = side / gaps;
    if side % gaps != 0 {
        return false;
    }
    if space < LEAST_SPACE {
        return false;
    }
    space <= MOST_SPACE
}

// The case with the lines and rods of a yard; a yard without rods has rod length and place 0.
pub fn yard(c: Case, side: u32, lines: u32, rods: u32) -> Case
    requires { 2 ≤ lines }
    ensures { result ≡ yard_of c side lines rods }
{
    let mut y = c;
    y.across = lines;
    y.along = lines;
    y.space = side / (lines - 1);
    y.rods = rods;
    if rods == 0 {
        y.rodlen = 0;
        y.place = 0;
        return y;
    }
    y.place = 1;
    y
}

// The case with a yard that agrees with its rod length: what is left to check.
pub fn trial(c: Case) -> Case
    ensures { result ≡ trial_of c }
{
    if c.rodlen == 0 {
        return yard(c, 2500, 2, 0);
    }
    yard(c, 2500, 2, 4)
}

fn means_safe(v: Verdict) -> bool
    ensures { result ≡ means_safe v }
{
    match v {
        Verdict::Safe => true,
        Verdict::Unsafe => false,
        Verdict::Undecided => false,
    }
}

// Whether a yard is answered safe, by its parts.
pub fn parts_safe(c: Case, fixed: Fixed, driven: Driven) -> bool
    requires fixed_value { fixed ≡ fixed_of c }
    requires driven_value { driven ≡ driven_of c }
    ensures { result ≡ is_safe c }
{
    means_safe(verdict_of(
        fixed.tolerable_touch,
        fixed.tolerable_step,
        driven.mesh,
        driven.step,
    ))
}

// Whether a yard is answered safe.
pub fn is_safe(c: Case) -> bool
    requires { Bounds c }
    ensures { result ≡ is_safe c }
{
    let fixed = fixed_parts(c);
    parts_safe(c, fixed, driven_parts(c, fixed))
}
