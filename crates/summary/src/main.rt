// Reads a sheet from standard input and prints for each station its number, how many seasons it has, how many of them are safe, unsafe and
// undecided, and the season with the highest upper mesh end; or the refusal.
#![tactic(auto)]

use listing::Program;

fn main(rt: HostRuntime) {
    cli::run(&rt, Program::Summary);
}
