// Reads a sheet of the former names (§8.1) from standard input and prints it with today's, or the refusal.
#![tactic(auto)]

use listing::Program;

fn main(rt: HostRuntime) {
    cli::run(&rt, Program::Carry);
}
