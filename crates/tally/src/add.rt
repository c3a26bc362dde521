// One line added to what is counted of its station.
ghost use Rattle.std.specs.Prelude.{◌≡◌, eqb, ◌||◌};
ghost use Rattle.case.specs.Bounds.{Bounds};
ghost use Rattle.decision.specs.Verdict.{verdict_number};
ghost use Rattle.row.specs.Ends.{row_of};
ghost use Rattle.whole.specs.Count.{one};
ghost use Rattle.tally.specs.Lines.{same_yard, other_yard, area_of, too_small};
ghost use Rattle.tally.specs.Tally.{add_line, Small};

use crate::Tally;
use case::Case;
use decision::Verdict;
use headroom::greatest_fault;
use row::work_row;

// 254² and 1000: 1000·dia² is in 64,516ths of a kcmil, dia in tenths of a mm.
const KCMIL: u32 = 64516;

const THOUSAND: u32 = 1000;

// 1 where the verdict is unsafe.
fn count_unsafe(v: Verdict) -> u32
    ensures { result ≡ one (eqb (verdict_number v) 2) }
{
    u32::from(matches!(v, Verdict::Unsafe))
}

// 1 where it is undecided.
fn count_undecided(v: Verdict) -> u32
    ensures { result ≡ one (eqb (verdict_number v) 3) }
{
    u32::from(matches!(v, Verdict::Undecided))
}

// The nine columns of a yard by value.
fn same_yard(c: Case, d: Case) -> bool
    ensures { result ≡ same_yard c d }
{
    c.across == d.across
        && c.along == d.along
        && c.space == d.space
        && c.depth == d.depth
        && c.dia == d.dia
        && c.rods == d.rods
        && c.rodlen == d.rodlen
        && c.place == d.place
        && c.metal == d.metal
}

// 1 where the case has another yard.
fn count_other(yard: Case, c: Case) -> u32
    ensures { result ≡ one (other_yard yard c) }
{
    u32::from(!same_yard(yard, c))
}

// The conductor's cross-section in whole kcmil, rounded down: its own, or with 0 that of a solid round wire of the line's diameter.
fn area_of(c: Case, area: u32) -> u32
    requires { Bounds c }
    ensures { result ≡ area_of area c }
{
    if area != 0 {
        area
    } else {
        THOUSAND * (c.dia * c.dia) / KCMIL
    }
}

// 1 where the conductor is too small for the size in kcmil.
fn count_small(c: Case, area: u32, size: i64) -> u32
    requires bounds { Bounds c }
    requires size_value { size ≡ (row_of c).size }
    ensures { result ≡ one (too_small area c) }
{
    u32::from(i64::from(area_of(c, area)) < size)
}

// Whether a season has a line, with one more.
fn has(season: u32, which: u32, before: bool) -> bool
    ensures { result ≡ (eqb season which || before) }
{
    season == which || before
}

// A line whose yard is compared with that of the first, and whose conductor has this cross-section of its own in kcmil, or 0.
pub fn add(yard: Case, area: u32, c: Case, t: Tally) -> Tally
    requires bounds { Bounds c }
    requires small { Small t }
    ensures { result ≡ add_line yard area c t }
{
    let row = work_row(c);
    let not_safe = count_unsafe(row.verdict) + t.not_safe;
    let undecided = count_undecided(row.verdict) + t.undecided;
    let other = count_other(yard, c) + t.other;
    let small = count_small(c, area, row.size) + t.small;
    Tally {
        lines: 1 + t.lines,
        first: has(c.season, 1, t.first),
        second: has(c.season, 2, t.second),
        third: has(c.season, 3, t.third),
        fourth: has(c.season, 4, t.fourth),
        not_safe,
        undecided,
        other,
        small,
        fault: greatest_fault(c).min(t.fault),
    }
}
