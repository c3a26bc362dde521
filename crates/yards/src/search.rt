// The search: nested loops over line counts and rod counts, left by a label at the first safe yard.
ghost use Rattle.std.specs.Prelude.{◌≡◌};
ghost use Rattle.case.specs.Bounds.{Bounds};
ghost use Rattle.yards.specs.Yards.{yard as yard_of};
ghost use Rattle.yards.specs.Fewest.{fewest};

use crate::FewestLines;
use crate::yard::{fits, is_safe, yard};
use case::Case;

pub fn first_safe(c: Case, side: u32) -> FewestLines
    requires { Bounds (yard_of c 2500 2 4) }
    ensures { result ≡ fewest c side }
{
    let mut answer = FewestLines::None(0);
    let mut tried: u32 = 0;
    'counts: for lines in 2..=25 {
        if !fits(side, lines) {
            continue;
        }
        for k in 0..=10 {
            tried += 1;
            let rods = 4 * k;
            if is_safe(yard(c, side, lines, rods)) {
                answer = FewestLines::Found(lines, rods, tried);
                break 'counts;
            }
            answer = FewestLines::None(tried);
        }
    }
    answer
}
