// Resistance of the grid and ground potential rise, by whole-number intervals.
#![tactic(auto)]

ghost use Rattle.std.specs.Prelude.{◌≡◌};
ghost use Rattle.case.specs.Bounds.{Bounds};
ghost use Rattle.current.specs.Ends.{ig_ends};
ghost use Rattle.resistance.specs.Ends.{root_twenty, side_ends, depth_ends, shape_ends, width_ends, per_soil_ends, resistance_ends, rise_ends};

use case::Case;
use interval::Interval;
use interval::root::root_ends;
use lengths::{lt, side_x, side_y};

// √20 in 10^-9.
fn root_twenty() -> Interval
    ensures { result ≡ root_twenty }
{
    Interval::natural(4472135954, 4472135955)
}

// s in micrometres: the side of a square, else the root of the area.
pub fn side_term(c: Case) -> Interval
    requires { Bounds c }
    ensures { result ≡ side_ends c }
{
    let x = side_x(c);
    let y = side_y(c);
    if c.across == c.along {
        return Interval::point(1000 * x);
    }
    root_ends(x * y * 1000000)
}

// 1 + h·√20/s in 10^-9.
fn depth_term(c: Case) -> Interval
    requires { Bounds c }
    ensures { result ≡ depth_ends c }
{
    let share = root_twenty()
        .scaled(c.depth as u64)
        .quotient(side_term(c), 1000);
    Interval::point(1000000000).sum(share)
}

// 1 + 1/(1 + h·√20/s) in 10^-9.
fn shape_term(c: Case) -> Interval
    requires { Bounds c }
    ensures { result ≡ shape_ends c }
{
    let one = Interval::point(1000000000);
    one.sum(one.quotient(depth_term(c), 1000000000))
}

// √20·s in 10^-9 m.
fn width_term(c: Case) -> Interval
    requires { Bounds c }
    ensures { result ≡ width_ends c }
{
    side_term(c).product(root_twenty(), 1000000)
}

// The resistance per ohm metre of soil, in 10^-9 per metre.
fn per_soil(c: Case) -> Interval
    requires { Bounds c }
    ensures { result ≡ per_soil_ends c }
{
    let total = Interval::point(lt(c));
    let first = Interval::point(1).quotient(total, 1000000000000);
    first.sum(shape_term(c).quotient(width_term(c), 1000000000))
}

// Resistance in micro-ohms.
pub fn resistance(c: Case) -> Interval
    requires { Bounds c }
    ensures { result ≡ resistance_ends c }
{
    per_soil(c).scaled(c.soil as u64).outward(1000)
}

// Ground potential rise in mV, for the case's resistance and current.
pub fn potential_rise(c: Case, ohms: Interval, current: Interval) -> Interval
    requires bounds { Bounds c }
    requires ohms_value { ohms ≡ resistance_ends c }
    requires current_value { current ≡ ig_ends c }
    ensures { result ≡ rise_ends c }
{
    ohms.wide_product(current, 1000000000)
}
