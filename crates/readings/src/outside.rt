// The first pair with a number out of its range.
ghost use Rattle.std.specs.Prelude.{◌≡◌, ◌≤◌};
ghost use Rattle.readings.specs.Reading.{pairs_of};
ghost use Rattle.readings.specs.Limits.{in_range};
ghost use Rattle.readings.specs.Refusal.{first_outside};

// Both ends included. Not the `RangeInclusive` of std, which is no `Copy` type and hides its ends from the definitions.
#[derive(Clone, Copy)]
pub struct Range {
    pub low: u32,
    pub high: u32,
}

fn in_range(range: Range, n: u32) -> bool
    ensures { result ≡ in_range range n }
{
    (range.low..=range.high).contains(&n)
}

// Its place, from 1, by the numbers in a column, 1 or 2.
pub fn first_outside(readings: &[u32], column: usize, range: Range) -> Option<usize>
    requires { (1 ≤ column) × (column ≤ 2) }
    ensures { result ≡ first_outside range column 1 (pairs_of readings.now) }
{
    let (pairs, _) = readings.as_chunks::<2>();
    pairs
        .iter()
        .position(|pair| !in_range(range, pair[column - 1]))
        .map(|k| k + 1)
}
