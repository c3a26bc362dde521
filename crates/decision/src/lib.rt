// The verdict from the ends.
#![tactic(auto)]

ghost use Rattle.std.specs.Prelude.{◌≡◌, pos};
ghost use Rattle.decision.specs.Verdict.{safe as safe_ends, unsafe as unsafe_ends, verdict, verdict_number};

use interval::Interval;

#[derive(Clone, Copy, PartialEq, Eq)]
pub enum Verdict {
    Safe,
    Unsafe,
    Undecided,
}

// Mesh and step voltage are not above what is tolerable.
fn is_safe(
    tolerable_touch: Interval,
    tolerable_step: Interval,
    mesh: Interval,
    step: Interval,
) -> bool
    ensures { result ≡ safe_ends tolerable_touch tolerable_step mesh step }
{
    mesh.upper <= tolerable_touch.lower && step.upper <= tolerable_step.lower
}

// Mesh or step voltage is above what is tolerable.
fn is_unsafe(
    tolerable_touch: Interval,
    tolerable_step: Interval,
    mesh: Interval,
    step: Interval,
) -> bool
    ensures { result ≡ unsafe_ends tolerable_touch tolerable_step mesh step }
{
    tolerable_touch.upper < mesh.lower || tolerable_step.upper < step.lower
}

// The verdict of tolerable touch, tolerable step, mesh and step voltage.
pub fn verdict_of(
    tolerable_touch: Interval,
    tolerable_step: Interval,
    mesh: Interval,
    step: Interval,
) -> Verdict
    ensures { result ≡ verdict tolerable_touch tolerable_step mesh step }
{
    if is_safe(tolerable_touch, tolerable_step, mesh, step) {
        return Verdict::Safe;
    }
    if is_unsafe(tolerable_touch, tolerable_step, mesh, step) {
        return Verdict::Unsafe;
    }
    Verdict::Undecided
}

// 1 safe, 2 unsafe, 3 undecided.
pub fn verdict_number(v: Verdict) -> i64
    ensures { result ≡ pos (verdict_number v) }
{
    match v {
        Verdict::Safe => 1,
        Verdict::Unsafe => 2,
        Verdict::Undecided => 3,
    }
}
