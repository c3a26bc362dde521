// The fewest lines for a given side: yards are tried in order until one is safe. §6.7.
#![tactic(auto)]

mod search;
mod yard;

ghost use Rattle.std.specs.Prelude.{◌≡◌, Ok};
ghost use Rattle.case.specs.Check.{record_judged};
ghost use Rattle.yards.specs.Yards.{trial as trial_of};
ghost use Rattle.yards.specs.Fewest.{side_answer, FewestAnswered};

use case::{Case, REFUSED_NO_RODLEN, REFUSED_SIDE, judge};
use refusal::Refused;
use search::first_safe;
pub use yard::parts_safe;
use yard::trial;

// The range of a side, in mm.
const LEAST_SIDE: u32 = 2500;

const MOST_SIDE: u32 = 720000;

// The counts of lines and rods of the first safe yard and its place; or how many yards were tried, none of them safe.
#[derive(Clone, Copy)]
pub enum FewestLines {
    Found(u32, u32, u32),
    None(u32),
}

// Refusals 15 and 16, then the search.
fn side_answer(c: Case, side: u32) -> Result<FewestLines, Refused>
    requires { record_judged (trial_of c) ≡ Ok tt }
    ensures { result ≡ side_answer c side }
{
    if side < LEAST_SIDE {
        return Err(Refused(REFUSED_SIDE, 0, 0));
    }
    if MOST_SIDE < side {
        return Err(Refused(REFUSED_SIDE, 0, 0));
    }
    if c.rodlen == 0 {
        return Err(Refused(REFUSED_NO_RODLEN, 0, 0));
    }
    Ok(first_safe(c, side))
}

// The fewest lines, then rods, with which a square yard of this side is answered safe.
pub fn fewest_lines(c: Case, side: u32) -> Result<FewestLines, Refused>
    ensures { FewestAnswered c side result }
{
    judge(trial(c))?;
    side_answer(c, side)
}
