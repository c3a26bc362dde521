// A write that fails, reported on standard error.
use listing::Program;
use std::io::{Error, ErrorKind, Write};
use std::str;

// More bytes than any error is printed in.
const PRINTED: usize = 256;

// The program's name, as its file has it.
fn name_of(program: Program) -> &'static str {
    match program {
        Program::Verdict => "verdict",
        Program::Rows => "rows",
        Program::Margins => "margins",
        Program::Summary => "summary",
        Program::Fewest => "fewest",
        Program::Carry => "carry",
        Program::CarryBack => "carry_back",
    }
}

// The reason alone: what an error of the system is printed as ends in its number, as ` (os error 28)`.
fn reason_of(printed: &str) -> &str {
    printed
        .split_once(" (os error ")
        .map_or(printed, |(reason, _)| reason)
}

// Says on standard error that a program's output could not be written, and why.
fn tell(rt: &impl Eprint, program: Program, error: Error) {
    let mut space = [0u8; PRINTED];
    let mut rest = &mut space[..];
    let _ = write!(rest, "{error}");
    let n = PRINTED.saturating_sub(rest.len());
    let name = name_of(program);
    let reason = reason_of(str::from_utf8(&space[..n]).unwrap_or(""));
    let _ = eprintln!(rt; "{name}: standard output: {reason}");
}

// A reader that has gone away wants no more: that is no failure.
fn is_closed(error: &Error) -> bool {
    error.kind() == ErrorKind::BrokenPipe
}

// Reports a write that failed, except at a closed pipe.
pub fn report(rt: &impl Eprint, program: Program, error: Error) {
    if !is_closed(&error) {
        tell(rt, program, error);
    }
}
