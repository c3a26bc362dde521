// The space that a program reads its input into.

// More bytes than the stored questions and sheets have.
pub const SPACE: usize = 2097152;

// The space before anything is read. The checker takes its length from the type here, and in a local it would count the bytes.
pub fn empty_space() -> [u8; SPACE] {
    [0u8; SPACE]
}
