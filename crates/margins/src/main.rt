// Reads a sheet from standard input and prints station, season, verdict and margins of each row, or the refusal.
#![tactic(auto)]

use listing::Program;

fn main(rt: HostRuntime) {
    cli::run(&rt, Program::Margins);
}
