// Reads questions from standard input, one a line: a kind, then its numbers, separated by commas. Prints each line, a comma and the answer.
// tests/questions/questions.py gathers the questions, and the tests in tests/questions and tests/measurements judge the answers.
// A write that fails is ignored: what is missing is missing from the stored answers too.
#![tactic(auto)]

mod answer;
mod case_asked;
mod measured;
mod question;

use gate::{SPACE, empty_space, first_part, too_long};
use question::ask;

// Every line of s. No index is counted, and a line's end is found by `first_part`, sixteen bytes a turn: by `split_inclusive`, a byte a turn,
// a long line takes a third longer.
fn lines(rt: &impl Print, s: &[u8]) {
    let mut rest = s;
    while !rest.is_empty() {
        let (line, after) = first_part(rest, b'\n');
        ask(rt, line);
        rest = after;
    }
}

// The answers to all of the input: one that fills the space may be longer.
fn answers(rt: &impl Print, s: &[u8]) {
    if s.len() < SPACE {
        lines(rt, s);
    } else {
        too_long(rt);
    }
}

fn main(rt: HostRuntime) {
    let mut space = empty_space();
    let n = cli::read(&rt, &mut space);
    answers(&rt, &space[..n]);
}
