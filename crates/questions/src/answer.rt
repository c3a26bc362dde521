// The end of a line: the answer to its question.
use gate::{bytes, number, numbers, refused};
use hocsimbur::{FewestLines, Interval, Quantities, Refused, Row, TouchAndStep};

// A number that the rules settle.
pub fn settled(rt: &impl Print, answer: Result<u64, Refused>) {
    match answer {
        Ok(n) => {
            number(rt, n);
            bytes(rt, b"\n");
        }
        Err(Refused(why, line, column)) => refused(rt, why, line, column),
    }
}

fn both(rt: &impl Print, pair: Interval) {
    numbers(rt, &[pair.lower, pair.upper]);
}

// A pair of ends.
pub fn ends(rt: &impl Print, answer: Result<Interval, Refused>) {
    match answer {
        Ok(pair) => both(rt, pair),
        Err(Refused(why, line, column)) => refused(rt, why, line, column),
    }
}

fn four(rt: &impl Print, touch: Interval, step: Interval) {
    numbers(rt, &[touch.lower, touch.upper, step.lower, step.upper]);
}

// The ends of tolerable touch and step.
pub fn voltages(rt: &impl Print, answer: Result<TouchAndStep, Refused>) {
    match answer {
        Ok(limits) => four(rt, limits.touch, limits.step),
        Err(Refused(why, line, column)) => refused(rt, why, line, column),
    }
}

fn whole(rt: &impl Print, row: Row) {
    numbers(rt, &hocsimbur::row_numbers(row));
}

// A row.
pub fn row_numbers(rt: &impl Print, answer: Result<Row, Refused>) {
    match answer {
        Ok(row) => whole(rt, row),
        Err(Refused(why, line, column)) => refused(rt, why, line, column),
    }
}

// The greatest safe fault current.
pub fn room(rt: &impl Print, answer: Result<Option<u32>, Refused>) {
    match answer {
        Ok(Some(fault)) => {
            number(rt, fault as u64);
            bytes(rt, b"\n");
        }
        Ok(None) => bytes(rt, b"none\n"),
        Err(Refused(why, line, column)) => refused(rt, why, line, column),
    }
}

// The working of a case.
pub fn quantities(rt: &impl Print, answer: Result<Quantities, Refused>) {
    match answer {
        Ok(w) => {
            let ends = hocsimbur::working_numbers(w);
            numbers(rt, &ends);
        }
        Err(Refused(why, line, column)) => refused(rt, why, line, column),
    }
}

// Numbers with commas between them.
fn three(rt: &impl Print, lines: u32, rods: u32, tried: u32) {
    let _ = println!(rt; "{lines},{rods},{tried}");
}

// The first safe yard of a search: lines, rods and yards tried; or how many yards were tried, none of them safe.
pub fn found(rt: &impl Print, answer: Result<FewestLines, Refused>) {
    match answer {
        Ok(FewestLines::Found(lines, rods, tried)) => {
            bytes(rt, b"found,");
            three(rt, lines, rods, tried);
        }
        Ok(FewestLines::None(tried)) => {
            bytes(rt, b"none,");
            number(rt, tried as u64);
            bytes(rt, b"\n");
        }
        Err(Refused(why, line, column)) => refused(rt, why, line, column),
    }
}
