// A number in decimal digits, for the programs that read numbers from standard input.

// The number that some digits are; None where a byte is no digit, where there is none or where 64 bits do not hold it.
pub fn numeral(s: &[u8]) -> Option<u64> {
    if s.is_empty() {
        return None;
    }
    let mut n: u64 = 0;
    for b in s {
        if !b.is_ascii_digit() {
            return None;
        }
        n = n.checked_mul(10)?.checked_add(u64::from(*b - b'0'))?;
    }
    Some(n)
}
