// One question: its kind decides what its numbers are.
use crate::case_asked::ask_case;
use crate::measured::{ask_soil, ask_split};
use gate::{bytes, first_part};

// The line, a comma and its answer.
pub fn ask(rt: &impl Print, line: &[u8]) {
    bytes(rt, line);
    bytes(rt, b",");
    let (kind, fields) = first_part(line, b',');
    match kind {
        b"soil" => ask_soil(rt, fields),
        b"split" => ask_split(rt, fields),
        _ => ask_case(rt, kind, fields),
    }
}
