// Reads a side in mm, one line, then a sheet of one value line from standard input, and prints the fewest lines, then rods, with which
// a square yard of that side is answered safe. tests/questions/test_fewest.py judges what it prints.
#![tactic(auto)]

use listing::Program;

fn main(rt: HostRuntime) {
    cli::run(&rt, Program::Fewest);
}
