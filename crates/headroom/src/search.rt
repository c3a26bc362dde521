// The search. Every fault current in range up to `safe` is safe and none from `over` on; one fault current between is asked a turn, first
// the guesses, then the middle: at most 6 and 17 turns. What the fault current does not change is computed once.
ghost use Rattle.std.specs.Prelude.{◌≡◌, ◌+◌, ◌-◌, ◌<◌};
ghost use Rattle.case.specs.Bounds.{Bounds};
ghost use Rattle.case.specs.Fault.{with_fault};
ghost use Rattle.row.specs.Parts.{fixed_of};
ghost use Rattle.yards.specs.Yards.{is_safe};
ghost use Rattle.headroom.specs.Headroom.{InRange, RightFault};
ghost use Rattle.headroom.specs.Search.{Next};

use crate::guess::guess;
use case::Case;
use row::{Fixed, driven_parts, fixed_parts};
use yards::parts_safe;

// The fault current's range, in amperes.
const LEAST_FAULT: u32 = 100;

pub const MOST_FAULT: u32 = 80000;

// Told where none is safe.
const NONE: u32 = 0;

// How many guesses are asked. After 80,000 A two are enough for most cases, and three for nearly all.
const GUESSES: u32 = 6;

// What a fault current shows: whether the case is answered safe with it, and a guess at the greatest such.
#[derive(Clone, Copy)]
struct Told {
    safe: bool,
    guess: u32,
}

// The case with another fault current.
fn with_fault(c: Case, fault: u32) -> Case
    ensures { result ≡ with_fault fault c }
{
    let mut d = c;
    d.fault = fault;
    d
}

// What a fault current shows, for the case's fixed parts.
fn ask(c: Case, fixed: Fixed, fault: u32) -> Told
    requires bounds { Bounds c }
    requires fixed_value { fixed ≡ fixed_of c }
    requires in_range { InRange fault }
    ensures { result.safe ≡ is_safe (with_fault fault c) }
{
    let d = with_fault(c, fault);
    let driven = driven_parts(d, fixed);
    Told {
        safe: parts_safe(d, fixed, driven),
        guess: guess(fault, fixed, driven),
    }
}

// The fault current to ask: what is strictly between and nearest to the guess, or the middle where no guess is left.
fn next_fault(safe: u32, over: u32, guesses: u32, guess: u32) -> u32
    requires { safe + 1 < over }
    ensures { Next safe over guesses result }
{
    if guesses == 0 {
        return safe + (over - safe) / 2;
    }
    if guess <= safe {
        return safe + 1;
    }
    if over <= guess {
        return over - 1;
    }
    guess
}

// One guess less.
fn fewer(guesses: u32) -> u32
    ensures { result ≡ guesses - 1 }
{
    if guesses == 0 {
        return 0;
    }
    guesses - 1
}

// The greatest safe fault current of a case within its bounds, or 0 where none is.
pub fn greatest_fault(c: Case) -> u32
    requires { Bounds c }
    ensures { RightFault c result }
{
    let fixed = fixed_parts(c);
    let mut safe: u32 = LEAST_FAULT - 1;
    let mut over: u32 = MOST_FAULT + 1;
    let mut guesses: u32 = GUESSES;
    let mut guess: u32 = MOST_FAULT;
    while 1 < over - safe {
        let fault = next_fault(safe, over, guesses, guess);
        let told = ask(c, fixed, fault);
        guesses = fewer(guesses);
        guess = told.guess;
        if told.safe {
            safe = fault;
        } else {
            over = fault;
        }
    }
    if LEAST_FAULT <= safe {
        return safe;
    }
    NONE
}
