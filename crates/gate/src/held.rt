// What a table or a buffer holds before it is lent, and how much of it is as it was.

// The number of places after which the pattern repeats.
const PLACES: usize = 65536;

// What place i of a table holds: -1 - i, which no neighbouring place holds.
fn number_at(i: usize) -> i64 {
    !((i % PLACES) as i64)
}

// What place i of a buffer holds: 128 or more, which no byte of a sheet is, and not what the neighbouring places hold.
fn byte_at(i: usize) -> u8 {
    ((i % 128) as u8) + 128
}

pub fn hold(table: &mut [i64]) {
    for (i, z) in table.iter_mut().enumerate() {
        *z = number_at(i);
    }
}

pub fn hold_bytes(buffer: &mut [u8]) {
    for (i, b) in buffer.iter_mut().enumerate() {
        *b = byte_at(i);
    }
}

// How many numbers of a table are as they were. A sum of tests, so that several are compared at once: by `filter` and `count`
// `sheets` takes half as long again.
pub fn numbers_kept(table: &[i64]) -> usize {
    let mut n: usize = 0;
    for (i, z) in table.iter().enumerate() {
        n += usize::from(*z == number_at(i));
    }
    n
}

// How many bytes of a buffer are as they were.
pub fn bytes_kept(buffer: &[u8]) -> usize {
    let mut n: usize = 0;
    for (i, b) in buffer.iter().enumerate() {
        n += usize::from(*b == byte_at(i));
    }
    n
}
