// What a station's counts say: seasons without a line, released or held, the fault current.
ghost use Rattle.std.specs.Prelude.{◌≡◌, not, cond, ◌&&◌, ◌≤◌, ◌/◌, ◌%◌, eqb};
ghost use Rattle.whole.specs.Count.{one};
ghost use Rattle.tally.specs.Tally.{Small, missing_by, released};

use crate::Tally;

// 1 where the season that counts `unit` is licensed and has no line.
fn lacking(unit: u32, seasons: u32, has: bool) -> u32
    requires { 1 ≤ unit }
    ensures value { result ≡ one (eqb (seasons / unit % 2) 1 && not has) }
    ensures at_most_one { result ≤ 1 }
{
    u32::from(seasons / unit % 2 == 1 && !has)
}

// How many licensed seasons have no line.
pub fn missing_seasons(seasons: u32, t: Tally) -> u32
    ensures { result ≡ missing_by seasons t }
{
    lacking(1, seasons, t.first)
        + lacking(2, seasons, t.second)
        + lacking(4, seasons, t.third)
        + lacking(8, seasons, t.fourth)
}

// 1 released, 2 held; `without` is the count of licensed seasons that have no line.
pub fn released_or_held(without: u32, t: Tally) -> u32
    requires without_bound { without ≤ 4 }
    requires small { Small t }
    ensures { result ≡ released without t.not_safe t.undecided t.other t.small }
{
    if without + t.not_safe + t.undecided + t.other + t.small == 0 {
        1
    } else {
        2
    }
}

// The fault current, which without a line is 0.
pub fn reported_fault(t: Tally) -> u32
    ensures { result ≡ cond (eqb t.lines 0) 0 t.fault }
{
    if t.lines == 0 { 0 } else { t.fault }
}
