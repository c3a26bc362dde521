// Signed whole numbers: division rounded down and up, by one divisor and by two.
#![tactic(auto)]

pub mod wide;

ghost use Rattle.std.specs.Prelude.{◌≡◌, ◌≤◌, ◌<◌, ◌^◌, nat_abs};
ghost use Rattle.whole.specs.Whole.{floor_z, ceil_z, min_z, max_z};

// a / d, rounded toward the lower end, also below 0. The divisor may be 2^63 or more, which the i64 of `div_euclid` cannot hold.
pub fn floor_div(a: i64, d: u64) -> i64
    requires { 0 < d }
    ensures { result ≡ floor_z a d }
{
    if a < 0 {
        !(((!a as u64) / d) as i64)
    } else {
        ((a as u64) / d) as i64
    }
}

// a / d, rounded toward the upper end.
pub fn ceil_div(a: i64, d: u64) -> i64
    requires { (0 < d) × (nat_abs a < 2 ^ 63) }
    ensures { result ≡ ceil_z a d }
{
    -floor_div(-a, d)
}

// The lesser of a / d and a / e, each rounded down, where d is not above e: one division, by d below 0 and by e else.
pub fn least_floor(a: i64, d: u64, e: u64) -> i64
    requires { (0 < d) × (d ≤ e) }
    ensures { result ≡ min_z (floor_z a d) (floor_z a e) }
{
    if a < 0 {
        floor_div(a, d)
    } else {
        floor_div(a, e)
    }
}

// The greater of a / d and a / e, each rounded up.
pub fn most_ceil(a: i64, d: u64, e: u64) -> i64
    requires d_nonzero { (0 < d) × (d ≤ e) }
    requires a_bound { nat_abs a < 2 ^ 63 }
    ensures { result ≡ max_z (ceil_z a d) (ceil_z a e) }
{
    -least_floor(-a, d, e)
}
