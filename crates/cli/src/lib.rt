// A program's run: standard input read to its end, its text in one write, and a write that fails reported on standard error.
#![tactic(auto)]

mod input;
mod report;

pub use input::read;
use listing::{INPUT, Program, TEXT, text};
use report::report;

// One byte more than an input may have, so that a longer one is refused: of most programs a sheet, of `fewest` a side's line before it.
const SPACE: usize = INPUT + 1;

// Reads all of standard input and writes the program's text of it.
pub fn run(rt: &(impl Input + Print + Eprint), program: Program) {
    let mut space = [0u8; SPACE];
    let n = read(rt, &mut space);
    let mut out = [0u8; TEXT];
    let r = text(program, &space[..n], &mut out);
    if let Err(e) = rt.write_all(&out[..r]) {
        report(rt, program, e);
    }
}
