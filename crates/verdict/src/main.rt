// Reads a sheet from standard input and prints each row's station, season, verdict and kcmil, or the refusal.
#![tactic(auto)]

use listing::Program;

fn main(rt: HostRuntime) {
    cli::run(&rt, Program::Verdict);
}
