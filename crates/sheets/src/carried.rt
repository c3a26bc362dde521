// A sheet carried over to the other form, in a buffer.
ghost use Rattle.std.specs.Prelude.{◌≤◌};

use crate::length::length;
use crate::listed::print_kept;
use case::Form;
use conversion::{carry, carry_back};
use gate::{bytes, bytes_kept, hold_bytes, refused, unknown};
use judgement::BYTES;
use refusal::Refused;

fn carry_to(form: Form, s: &[u8], buffer: &mut [u8]) -> Result<usize, Refused> {
    match form {
        Form::Present => carry(s, buffer),
        Form::Former => carry_back(s, buffer),
    }
}

// The first count bytes of the buffer.
fn front(rt: &impl Print, buffer: &[u8], count: usize) {
    if let Some(text) = buffer.get(..count) {
        bytes(rt, text);
    }
}

// Prints what is written to the buffer for a sheet.
fn answer(rt: &impl Print, form: Form, s: &[u8], buffer: &mut [u8]) {
    let a = carry_to(form, s, buffer);
    match a {
        Ok(count) => front(rt, buffer, count),
        Err(Refused(why, line, column)) => refused(rt, why, line, column),
    }
}

// One answer, in the first room bytes of a buffer.
fn in_buffer(rt: &impl Print, form: Form, s: &[u8], room: usize)
    requires { room ≤ BYTES }
{
    let mut buffer = [0u8; BYTES];
    hold_bytes(&mut buffer);
    answer(rt, form, s, &mut buffer[..room]);
    print_kept(rt, bytes_kept(&buffer));
}

// The two answers for a buffer length: `unknown` where it is not a length or too large.
fn at_length(rt: &impl Print, s: &[u8], field: &[u8]) {
    match length(field) {
        Some(room) if room <= BYTES => {
            in_buffer(rt, Form::Present, s, room);
            in_buffer(rt, Form::Former, s, room);
        }
        _ => unknown(rt),
    }
}

// The answers to a sheet for each of the buffer lengths: `unknown` where there is none.
pub fn ask(rt: &impl Print, lengths: &[u8], s: &[u8]) {
    if lengths.is_empty() {
        unknown(rt);
    }
    for field in lengths.split_inclusive(|b| *b == b',') {
        at_length(rt, s, field.strip_suffix(b",").unwrap_or(field));
    }
}
