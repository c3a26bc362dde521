// Reads sheets from standard input, each after a line that says what is asked of it and ended by a byte 0.
// Prints that line, the answers and an empty line. After each answer stands how much of the whole table or
// buffer kept what it held. What is asked, with lengths of tables and buffers:
//
// rows                     every row, as numbers and as verdicts, in a table with room for all rows and in one with room for two
// summary,ROWS,STATIONS    the stations and rows, in tables of these lengths
// carry,LENGTH,LENGTH..    the sheet carried on and carried back, in a buffer of each length
// release,LENGTH           the licence in the next line, in a table of this length
//
// tests/sheets/stored.py gathers the sheets; the tests in that folder judge the answers.
// A write that fails is ignored: what is missing is missing from the stored answers too.
#![tactic(auto)]

mod carried;
mod length;
mod listed;
mod portfolio;
mod rows;
mod summed;

use gate::{SPACE, bytes, empty_space, first_part, too_long, unknown};

// What is asked of a sheet, by the kind and the fields of its first line.
fn ask(rt: &impl Print, kind: &[u8], fields: &[u8], sheet: &[u8]) {
    match kind {
        b"rows" if fields.is_empty() => rows::ask(rt, sheet),
        b"summary" => summed::ask(rt, fields, sheet),
        b"carry" => carried::ask(rt, fields, sheet),
        b"release" => portfolio::ask(rt, fields, sheet),
        _ => unknown(rt),
    }
}

// A first line and the sheet after it.
fn answer(rt: &impl Print, s: &[u8]) {
    let (head, sheet) = first_part(s, b'\n');
    bytes(rt, head);
    bytes(rt, b"\n");
    let (kind, fields) = first_part(head, b',');
    ask(rt, kind, fields, sheet);
    bytes(rt, b"\n");
}

// Every sheet of s. No index is counted, and a sheet's end is found by `first_part`, sixteen bytes a turn: by `split_inclusive`, a byte a
// turn, a long sheet takes a third longer.
fn sheets(rt: &impl Print, s: &[u8]) {
    let mut rest = s;
    while !rest.is_empty() {
        let (part, after) = first_part(rest, 0);
        answer(rt, part);
        rest = after;
    }
}

// The answers to all of the input: one that fills the space may be longer.
fn answers(rt: &impl Print, s: &[u8]) {
    if s.len() < SPACE {
        sheets(rt, s);
    } else {
        too_long(rt);
    }
}

fn main(rt: HostRuntime) {
    let mut space = empty_space();
    let n = cli::read(&rt, &mut space);
    answers(&rt, &space[..n]);
}
