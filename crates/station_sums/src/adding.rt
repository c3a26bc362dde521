// One row added to the counts of its station.
ghost use Rattle.std.specs.Prelude.{◌≡◌, ◌≤◌};
ghost use Rattle.whole.specs.Count.{one};
ghost use Rattle.station_sums.specs.Summary.{same_z};
ghost use Rattle.station_sums.specs.Sums.{worst, add_to, Small};

use crate::{Entry, Sums};

// 1 where the verdict is v, else 0.
fn counted(e: Entry, v: i64) -> usize
    ensures value { result ≡ one (same_z e.verdict v) }
    ensures at_most_one { result ≤ 1 }
{
    usize::from(e.verdict == v)
}

// Whether a row's upper mesh end is the highest so far; an equal one is not.
fn is_worst(s: Sums, e: Entry) -> bool
    ensures { result ≡ worst s e }
{
    s.seasons == 0 || s.mesh < e.mesh
}

pub fn add(s: Sums, e: Entry) -> Sums
    requires { Small s }
    ensures { result ≡ add_to s e }
{
    let (season, mesh) = if is_worst(s, e) {
        (e.season, e.mesh)
    } else {
        (s.season, s.mesh)
    };
    Sums {
        seasons: s.seasons + 1,
        safe: s.safe + counted(e, 1),
        not_safe: s.not_safe + counted(e, 2),
        undecided: s.undecided + counted(e, 3),
        season,
        mesh,
    }
}
