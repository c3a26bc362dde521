// Reads a sheet of today's names from standard input and prints it with the former ones (§8.1), or the refusal.
#![tactic(auto)]

use listing::Program;

fn main(rt: HostRuntime) {
    cli::run(&rt, Program::CarryBack);
}
