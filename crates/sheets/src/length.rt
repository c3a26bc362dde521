// The length of a table or a buffer, as it is written.
use text::value;

// The length, or None where the bytes are no value.
pub fn length(s: &[u8]) -> Option<usize> {
    value(s).map(|n| n as usize)
}
