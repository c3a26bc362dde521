// The search for the fewest lines, asked of a sheet of one value line. The search does not read all values of its case, so of the
// refusals of a sheet 1, 2, 4 and 3 come first, and 5 and 6 are the search's own, of what it reads.
#![tactic(auto)]

mod reading;

ghost use Rattle.one_line.specs.Answer.{SheetFewest};

use case::{NAMES, case_of};
use reading::read_one;
use refusal::Refused;
use yards::{FewestLines, fewest_lines};

pub fn fewest_of_sheet(s: &[u8], side: u32) -> Result<FewestLines, Refused>
    ensures { SheetFewest s.now side result }
{
    let mut values = [0u32; NAMES];
    read_one(s, &mut values)?;
    fewest_lines(case_of(&values), side)
}
