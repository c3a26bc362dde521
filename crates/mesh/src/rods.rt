// LM, the length of conductors and rods that the mesh voltage counts.
ghost use Rattle.std.specs.Prelude.{◌≡◌};
ghost use Rattle.case.specs.Bounds.{Bounds};
ghost use Rattle.mesh.specs.Ends.{diagonal_ends, rod_weight, weighed_length, lm_ends};

use case::Case;
use interval::Interval;
use interval::root::root_ends;
use lengths::{lc, lr, lt, side_x, side_y};

// √(Lx²+Ly²) in micrometres.
fn diagonal(c: Case) -> Interval
    requires { Bounds c }
    ensures { result ≡ diagonal_ends c }
{
    let x = side_x(c);
    let y = side_y(c);
    root_ends((x * x + y * y) * 1000000)
}

// 1.55 + 1.22·Lr over the diagonal, in 10^-9.
fn rod_weight(c: Case) -> Interval
    requires { Bounds c }
    ensures { result ≡ rod_weight c }
{
    let share = Interval::point(122 * (c.rodlen as u64)).quotient(diagonal(c), 10000000000);
    Interval::point(1550000000).sum(share)
}

// LM with rods along the perimeter, in micrometres.
fn weighed_length(c: Case) -> Interval
    requires { Bounds c }
    ensures { result ≡ weighed_length c }
{
    let rods = rod_weight(c).product(Interval::point(lr(c)), 1000000);
    Interval::point(1000 * lc(c)).sum(rods)
}

// LM in micrometres.
pub fn lm(c: Case) -> Interval
    requires { Bounds c }
    ensures { result ≡ lm_ends c }
{
    if c.place == 1 {
        return weighed_length(c);
    }
    Interval::point(1000 * lt(c))
}
