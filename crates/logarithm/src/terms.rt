// The terms of the logarithm's series in units of 2^-33.
ghost use Rattle.std.specs.Prelude.{◌≡◌, ◌≤◌};
ghost use Rattle.logarithm.specs.Series.{term_count, terms_of};
ghost use Rattle.logarithm.specs.Ends.{end_of};

// How many units make one.
const UNIT: u64 = 8589934592;

const BILLION: u64 = 1000000000;

// ln 2 in units of 10^-12, rounded down.
const LN2: u64 = 693147180559;

// Nine terms of 2 (z + z³/3 + z⁵/5 + ..), each step rounded down.
pub fn series(z: u64) -> u64
    requires { z ≤ 3000000000 }
    ensures { result ≡ terms_of 0 z term_count }
{
    let square = z * z / UNIT;
    let mut power = z;
    let mut sum = 0;
    for i in 0..9 {
        sum += 2 * power / (2 * i + 1);
        power = power * square / UNIT;
    }
    sum
}

// The lower end of m ln 2 + ln r in billionths, for an argument of z units.
pub fn end(m: u64, z: u64) -> u64
    requires { (m ≤ 49) × (z ≤ 3000000000) }
    ensures { result ≡ end_of 0 m z }
{
    m * LN2 / 1000 + series(z) * BILLION / UNIT
}
