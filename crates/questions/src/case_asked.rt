// A question on a case, on a case and a side, or on two numbers.
use crate::answer::{ends, found, quantities, room, row_numbers, settled, voltages};
use case::{NAMES, case_of};
use gate::{natural, read, unknown, word};
use hocsimbur::Case;

// The most numbers of a question: a record and a side.
const MOST: usize = NAMES + 1;

// A question on a record.
fn on_record(rt: &impl Print, kind: &[u8], c: Case) {
    match kind {
        b"factor" => ends(rt, hocsimbur::decrement_factor(c)),
        b"size" => settled(rt, hocsimbur::conductor_size(c)),
        b"tolerable" => voltages(rt, hocsimbur::touch_and_step(c)),
        b"resistance" => ends(rt, hocsimbur::resistance(c)),
        b"row" => row_numbers(rt, hocsimbur::row(c)),
        b"headroom" => room(rt, hocsimbur::headroom(c)),
        b"working" => quantities(rt, hocsimbur::working(c)),
        _ => unknown(rt),
    }
}

// A question on two numbers.
fn on_two(rt: &impl Print, kind: &[u8], p: u64, q: u64) {
    match kind {
        b"ln" => ends(rt, hocsimbur::logarithm(p, q)),
        _ => unknown(rt),
    }
}

// A question on a record and a side.
fn on_side(rt: &impl Print, kind: &[u8], c: Case, side: u32) {
    match kind {
        b"fewest" => found(rt, hocsimbur::fewest_lines(c, side)),
        _ => unknown(rt),
    }
}

fn record(values: &[i64; NAMES]) -> Case {
    case_of(&values.map(word))
}

fn on_numbers(rt: &impl Print, kind: &[u8], v: &[i64]) {
    match v.split_first_chunk() {
        Some((values, [])) => on_record(rt, kind, record(values)),
        Some((values, [side])) => on_side(rt, kind, record(values), word(*side)),
        _ => match v {
            [p, q] => on_two(rt, kind, natural(*p), natural(*q)),
            _ => unknown(rt),
        },
    }
}

// The answer to a question on whole numbers.
pub fn ask_case(rt: &impl Print, kind: &[u8], fields: &[u8]) {
    let mut space = [0i64; MOST];
    match read(fields, 0..=i64::MAX, &mut space) {
        Some(v) => on_numbers(rt, kind, v),
        None => unknown(rt),
    }
}
