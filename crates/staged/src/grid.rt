// The grid current of a test that passed its checks, and its split.
ghost use Rattle.std.specs.Prelude.{◌≡◌, ◌≤◌, nat_abs};
ghost use Rattle.staged.specs.Current.{square_of};
ghost use Rattle.staged.specs.Answer.{grid_split};
ghost use Rattle.staged.specs.Parts.{Sound, Parts, largest_grid_part, GridPart};

use crate::GridShare;
use long_root::per_mille;

// The first number less every other after it: of each pair of numbers behind the first, the second.
fn grid_part(parts: &[i64]) -> i64
    requires { Parts parts.now }
    ensures { GridPart parts.now result }
{
    let mut left = parts[0];
    let (pairs, _) = parts[1..].as_chunks::<2>();
    for [_, part] in pairs {
        left -= *part;
    }
    left
}

// The square of a current with these parts.
fn square(in_phase: i64, quadrature: i64) -> u64
    requires { (nat_abs in_phase ≤ largest_grid_part) × (nat_abs quadrature ≤ largest_grid_part) }
    ensures { result ≡ square_of in_phase quadrature }
{
    let a = in_phase.unsigned_abs();
    let b = quadrature.unsigned_abs();
    a * a + b * b
}

pub fn measured(parts: &[i64]) -> GridShare
    requires { Sound parts.now }
    ensures { result ≡ grid_split parts.now }
{
    let in_phase = grid_part(parts);
    let quadrature = grid_part(&parts[1..]);
    let grid = square(in_phase, quadrature);
    let injected = square(parts[0], parts[1]);
    GridShare {
        in_phase,
        quadrature,
        per_mille: per_mille(grid, injected),
    }
}
