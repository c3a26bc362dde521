// Writing to standard output. A write that fails is ignored: what is missing is missing from the stored answers too.
use std::fmt::Display;

pub fn bytes(rt: &impl Print, s: &[u8]) {
    let _ = rt.write_all(s);
}

// n in decimal digits, with a minus sign below 0.
pub fn number(rt: &impl Print, n: impl Display + Drop) {
    let _ = rt.print(n);
}

// A line of numbers with commas between them.
pub fn numbers(rt: &impl Print, v: &[i64]) {
    for (i, z) in v.iter().enumerate() {
        if 0 < i {
            bytes(rt, b",");
        }
        number(rt, *z);
    }
    bytes(rt, b"\n");
}

// The line that says a refusal: its number, line and column.
pub fn refused(rt: &impl Print, why: u32, line: usize, column: usize) {
    let _ = println!(rt; "refused,{why},{line},{column}");
}

// The line that says that there is no such question.
pub fn unknown(rt: &impl Print) {
    bytes(rt, b"unknown\n");
}

// The line that says that the input does not fit the space.
pub fn too_long(rt: &impl Print) {
    bytes(rt, b"too long\n");
}
