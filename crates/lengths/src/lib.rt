// The lengths of a grid in whole millimetres, exact.
#![tactic(auto)]

ghost use Rattle.std.specs.Prelude.{◌≡◌};
ghost use Rattle.case.specs.Bounds.{Bounds};
ghost use Rattle.lengths.specs.Lengths.{side_of, side_x, side_y, lc_mm, lr_mm, lt_mm};
ghost use Rattle.case.specs.Bounds.{Between};

use case::Case;

// The side of a number of conductors at a distance.
fn side(count: u32, space: u32) -> u64
    requires { Between 2 count 25 × Between 2500 space 30000 }
    ensures { result ≡ side_of count space }
{
    ((count - 1) as u64) * (space as u64)
}

// Lx.
pub fn side_x(c: Case) -> u64
    requires { Bounds c }
    ensures { result ≡ side_x c }
{
    side(c.across, c.space)
}

// Ly.
pub fn side_y(c: Case) -> u64
    requires { Bounds c }
    ensures { result ≡ side_y c }
{
    side(c.along, c.space)
}

// All conductors.
pub fn lc(c: Case) -> u64
    requires { Bounds c }
    ensures { result ≡ lc_mm c }
{
    (c.across as u64) * side_y(c) + (c.along as u64) * side_x(c)
}

// All rods.
pub fn lr(c: Case) -> u64
    requires { Bounds c }
    ensures { result ≡ lr_mm c }
{
    (c.rods as u64) * (c.rodlen as u64)
}

// Conductors and rods.
pub fn lt(c: Case) -> u64
    requires { Bounds c }
    ensures { result ≡ lt_mm c }
{
    lc(c) + lr(c)
}
