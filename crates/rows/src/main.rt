// Reads a sheet from standard input and prints all numbers of each row, or the refusal. tests/sheets/test_rows.py judges the lines.
#![tactic(auto)]

use listing::Program;

fn main(rt: HostRuntime) {
    cli::run(&rt, Program::Rows);
}
