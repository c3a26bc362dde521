// The split as a root by decimal digits, within 64 bits: of grid / injected the whole part of the root, then three digits.
#![tactic(auto)]

ghost use Rattle.std.specs.Prelude.{◌≡◌};
ghost use Rattle.long_root.specs.Split.{split_of};
ghost use Rattle.long_root.specs.LongRoot.{Squares, Begun, Room, Appended, DigitRoom, IsDigit};

use interval::root::isqrt;

// A number and what is left over by its square times the injected square.
#[derive(Clone, Copy)]
struct Root {
    whole: u64,
    rest: u64,
}

// The greatest number whose square times injected is not above grid.
fn begin(grid: u64, injected: u64) -> Root
    requires { Squares grid injected }
    ensures { Begun grid injected result }
{
    let whole = isqrt(grid / injected);
    Root {
        whole,
        rest: grid - whole * whole * injected,
    }
}

// The greatest digit d with (20 · whole + d) · d · injected not above rest.
fn digit(whole: u64, rest: u64, injected: u64) -> u64
    requires { DigitRoom whole rest injected }
    ensures { IsDigit whole rest injected result }
{
    for d in 1..10 {
        if rest < (20 * whole + d) * d * injected {
            return d - 1;
        }
    }
    9
}

// One digit more.
fn append(r: Root, injected: u64) -> Root
    requires { Room injected r }
    ensures { Appended injected r result }
{
    let whole = r.whole;
    let rest = 100 * r.rest;
    let d = digit(whole, rest, injected);
    Root {
        whole: 10 * whole + d,
        rest: rest - (20 * whole + d) * d * injected,
    }
}

// The smallest number whose square times injected is not below a million times grid.
pub fn per_mille(grid: u64, injected: u64) -> u64
    requires { Squares grid injected }
    ensures { result ≡ split_of grid injected }
{
    let one = append(begin(grid, injected), injected);
    let two = append(one, injected);
    let three = append(two, injected);
    if three.rest == 0 {
        three.whole
    } else {
        three.whole + 1
    }
}
