// Tolerable touch and step voltage of a case, by whole-number intervals.
#![tactic(auto)]

ghost use Rattle.std.specs.Prelude.{◌≡◌, ◌≤◌};
ghost use Rattle.case.specs.Bounds.{Bounds};
ghost use Rattle.tolerable.specs.Ends.{layered as layered_ends, layer_ends, body_factor, time_root, top_ends, tolerable_ends, touch_and_step};

use case::Case;
use interval::Interval;
use interval::root::root_ends;

// The ends of the tolerable voltages.
#[derive(Clone, Copy)]
pub struct TouchAndStep {
    pub touch: Interval,
    pub step: Interval,
}

// Q with a surface layer: the difference of layer and soil is signed, and its share is rounded outward.
fn layered(c: Case) -> Interval
    requires { Bounds c }
    ensures { result ≡ layered_ends c }
{
    let soil = c.soil as u64;
    let layer = c.layer as u64;
    let thick = c.thick as u64;
    let gap = Interval::point(90000 * layer).difference(Interval::point(90000 * soil));
    Interval::point(1000 * layer).difference(gap.outward(2 * thick + 90))
}

// Q in thousandths of an ohm metre.
fn layer_effect(c: Case) -> Interval
    requires { Bounds c }
    ensures { result ≡ layer_ends c }
{
    if c.layer == 0 {
        return Interval::point(1000 * (c.soil as u64));
    }
    layered(c)
}

// k in thousandths.
fn body_factor(c: Case) -> u64
    ensures { result ≡ body_factor c }
{
    if c.body == 50 {
        return 116;
    }
    157
}

// √t in 10^-8.
pub fn time_root(c: Case) -> Interval
    requires { Bounds c }
    ensures { result ≡ time_root c }
{
    root_ends((c.shock as u64) * 10000000000000)
}

// (1000 + weight/2 · Q) · k in units of 1/2,000,000.
fn top(c: Case, weight: u64) -> Interval
    requires bounds { Bounds c }
    requires weight_bound { weight ≤ 12 }
    ensures { result ≡ top_ends c weight }
{
    let effect = layer_effect(c).scaled(weight);
    Interval::point(2000000).sum(effect).scaled(body_factor(c))
}

// That over √t, in mV.
fn over_root(c: Case, weight: u64, root: Interval) -> Interval
    requires bounds { Bounds c }
    requires weight_bound { weight ≤ 12 }
    requires root_value { root ≡ time_root c }
    ensures { result ≡ tolerable_ends c weight }
{
    top(c, weight).quotient(root, 50000)
}

// Tolerable touch and step voltage in mV, from one root.
pub fn touch_and_step(c: Case) -> TouchAndStep
    requires { Bounds c }
    ensures { result ≡ touch_and_step c }
{
    let root = time_root(c);
    TouchAndStep {
        touch: over_root(c, 3, root),
        step: over_root(c, 12, root),
    }
}
