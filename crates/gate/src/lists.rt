// The numbers of a line, separated by commas.
ghost use Rattle.std.specs.Prelude.{IfSome, ◌≤◌, length};

use crate::numerals::numeral;
use std::ops::RangeInclusive;

// A number, with a minus sign before it or not. One that is too large counts as the largest, because both are out of every range.
fn number(s: &[u8]) -> Option<i64> {
    match s {
        [b'-', digits @ ..] => {
            let z = i64::try_from(numeral(digits)?).ok()?;
            Some(-z)
        }
        _ => Some(i64::try_from(numeral(s)?).unwrap_or(i64::MAX)),
    }
}

// Puts the numbers of a line in v, and answers them; an empty line has none. None where a field is no number in the range or none
// that a T holds, or where there are more than v has room for.
pub fn read<'a, T: TryFrom<i64> + Copy>(
    s: &[u8],
    range: RangeInclusive<i64>,
    v: &'a mut [T],
) -> Option<&'a [T]>
where
    T::Error: Drop,
    ensures { IfSome result (λ numbers. length numbers.now ≤ length v.old) }
{
    let mut count: usize = 0;
    if !s.is_empty() {
        for field in s.split(|b| *b == b',') {
            let z = number(field).filter(|z| range.contains(z))?;
            *v.get_mut(count)? = T::try_from(z).ok()?;
            count += 1;
        }
    }
    v.get(..count)
}

// z, or 0 where it is below 0.
pub fn natural(z: i64) -> u64 {
    u64::try_from(z).unwrap_or(0)
}

// z, or the nearest number that 32 bits hold: one that is larger is out of every range too.
pub fn word(z: i64) -> u32 {
    u32::try_from(natural(z)).unwrap_or(u32::MAX)
}
