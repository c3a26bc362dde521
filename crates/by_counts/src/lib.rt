// What depends on the two counts alone, from a table: n, ln(8/(π(2n−1))), (2n)^(−2/n), 0.5^(n−2).
#![tactic(auto)]

ghost use Rattle.std.specs.Prelude.{◌≡◌};
ghost use Rattle.effective_number.specs.Counts.{Counts};
ghost use Rattle.by_counts.specs.Entries.{ends_of, Holds};
ghost use Rattle.by_counts.specs.Ends.{by_counts};

use interval::Interval;

mod entries;

// n in 10^-7, ln(π(2n−1)/8), (2n)^(−2/n) and 0.5^(n−2) in 10^-9: of each the lower end, and how far above it the upper end is.
#[derive(Clone, Copy)]
pub struct Entry(
    pub u32,
    pub u32,
    pub u32,
    pub u32,
    pub u32,
    pub u32,
    pub u32,
    pub u32,
);

#[derive(Clone, Copy)]
pub struct ByCounts {
    // 10^-7
    pub n: Interval,
    // ln(8/(π(2n−1))) in 10^-9
    pub spread: Interval,
    // (2n)^(−2/n) in 10^-9
    pub inner: Interval,
    // 0.5^(n−2) in 10^-9
    pub half: Interval,
}

fn ends(low: u32, width: u32) -> Interval
    ensures { result ≡ ends_of low width }
{
    let lower = low as u64;
    Interval::natural(lower, lower + (width as u64))
}

// The entry of the two counts in either order.
fn entry_of(a: u32, b: u32) -> Entry
    requires { Counts a b }
    ensures { Holds a b result }
{
    if a <= b {
        return entries::entry_at(a, b);
    }
    entries::entry_at(b, a)
}

// For a conductors across and b along.
pub fn by_counts(a: u32, b: u32) -> ByCounts
    requires { Counts a b }
    ensures { result ≡ by_counts a b }
{
    let e = entry_of(a, b);
    ByCounts {
        n: ends(e.0, e.1),
        spread: ends(e.2, e.3).minus(),
        inner: ends(e.4, e.5),
        half: ends(e.6, e.7),
    }
}
