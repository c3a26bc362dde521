// The checks of a staged test's numbers.
ghost use Rattle.std.specs.Prelude.{◌≡◌, false, length};
ghost use Rattle.staged.specs.Check.{bad_count, outside, any_outside, none_injected};

// The injected pair, then 1 to 16 branch pairs.
const FEWEST: usize = 4;

const MOST: usize = 34;

// The largest size of a part, in milliamperes.
const LARGEST: i64 = 1000000;

// Refusal 17.
pub fn bad_count(n: usize) -> bool
    ensures { result ≡ bad_count n }
{
    n % 2 != 0 || !(FEWEST..=MOST).contains(&n)
}

fn is_outside(part: i64) -> bool
    ensures { result ≡ outside part }
{
    !(-LARGEST..=LARGEST).contains(&part)
}

// Refusal 18.
pub fn any_outside(parts: &[i64]) -> bool
    ensures { result ≡ any_outside parts.now }
{
    parts.iter().any(|part| is_outside(*part))
}

// Refusal 19.
pub fn none_injected(parts: &[i64]) -> bool
    requires { bad_count (length parts.now) ≡ false }
    ensures { result ≡ none_injected parts.now }
{
    parts[0] == 0 && parts[1] == 0
}
