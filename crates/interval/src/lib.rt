// Pairs of signed whole numbers, as results are reported, with outward rounding: each operation's pair includes the exact one.
#![tactic(auto)]

pub mod root;

ghost use Rattle.std.specs.Prelude.{◌≡◌, ◌+◌, ◌*◌, ◌<◌, ◌^◌, pos, nat_abs, ◌≤ℤ◌};
ghost use Rattle.interval.specs.Wide.{Wide};
ghost use Rattle.interval.specs.Operations.{natural, point, size, sum_of, difference_of, minus_of, times_of, corners_of, outward_of};
ghost use Rattle.interval.specs.Operations.{scaled_of, hull_of, product_of, quotient_of};

use whole::{ceil_div, floor_div, least_floor, most_ceil, wide};

// The two ends of a quantity, in a unit that the quantity's definition names.
#[derive(Clone, Copy)]
pub struct Interval {
    pub lower: i64,
    pub upper: i64,
}

impl Interval {
    pub fn natural(a: u64, b: u64) -> Interval
        requires { (a < 2 ^ 63) × (b < 2 ^ 63) }
        ensures { result ≡ natural a b }
    {
        Interval {
            lower: a as i64,
            upper: b as i64,
        }
    }

    pub fn point(n: u64) -> Interval
        requires { n < 2 ^ 63 }
        ensures { result ≡ point (pos n) }
    {
        Interval {
            lower: n as i64,
            upper: n as i64,
        }
    }

    pub fn sum(self, other: Interval) -> Interval
        requires { size self + size other < 2 ^ 63 }
        ensures { result ≡ sum_of self other }
    {
        Interval {
            lower: self.lower + other.lower,
            upper: self.upper + other.upper,
        }
    }

    pub fn difference(self, other: Interval) -> Interval
        requires { size self + size other < 2 ^ 63 }
        ensures { result ≡ difference_of self other }
    {
        Interval {
            lower: self.lower - other.upper,
            upper: self.upper - other.lower,
        }
    }

    pub fn minus(self) -> Interval
        requires { size self < 2 ^ 63 }
        ensures { result ≡ minus_of self }
    {
        Interval {
            lower: -self.upper,
            upper: -self.lower,
        }
    }

    // Times k.
    pub fn scaled(self, k: u64) -> Interval
        requires { (k < 2 ^ 63) × (size self * k < 2 ^ 63) }
        ensures { result ≡ scaled_of self k }
    {
        Interval {
            lower: self.lower * (k as i64),
            upper: self.upper * (k as i64),
        }
    }

    // Times z, which may be below 0 and turn the ends round.
    fn times(self, z: i64) -> Interval
        requires { nat_abs z * size self < 2 ^ 63 }
        ensures { result ≡ times_of z self }
    {
        let a = z * self.lower;
        let b = z * self.upper;
        Interval {
            lower: a.min(b),
            upper: a.max(b),
        }
    }

    // The least pair with both inside.
    fn hull(self, other: Interval) -> Interval
        ensures { result ≡ hull_of self other }
    {
        Interval {
            lower: self.lower.min(other.lower),
            upper: self.upper.max(other.upper),
        }
    }

    // The least and the greatest of the four products of ends.
    fn corners(self, other: Interval) -> Interval
        requires { size self * size other < 2 ^ 63 }
        ensures { result ≡ corners_of self other }
    {
        other.times(self.lower).hull(other.times(self.upper))
    }

    // Divided by den, each end rounded outward.
    pub fn outward(self, den: u64) -> Interval
        requires { (0 < den) × (size self < 2 ^ 63) }
        ensures { result ≡ outward_of self den }
    {
        Interval {
            lower: floor_div(self.lower, den),
            upper: ceil_div(self.upper, den),
        }
    }

    // self · other / den, rounded outward.
    pub fn product(self, other: Interval, den: u64) -> Interval
        requires { (0 < den) × (size self * size other < 2 ^ 63) }
        ensures { result ≡ product_of self other den }
    {
        self.corners(other).outward(den)
    }

    // self · other / den, rounded outward, for ends that are not negative: the products themselves may pass 64 bits.
    pub fn wide_product(self, other: Interval, den: u64) -> Interval
        requires { Wide self other den }
        ensures { result ≡ product_of self other den }
    {
        Interval::natural(
            wide::floor(self.lower as u64, other.lower as u64, den),
            wide::ceil(self.upper as u64, other.upper as u64, den),
        )
    }

    // self · scale / divisor, rounded outward, for a divisor above 0.
    pub fn quotient(self, divisor: Interval, scale: u64) -> Interval
        requires pos_bound { (pos 1 ≤ℤ divisor.lower) × (divisor.lower ≤ℤ divisor.upper) }
        requires scale_bound { (scale < 2 ^ 63) × (size self * scale < 2 ^ 63) }
        ensures { result ≡ quotient_of self divisor scale }
    {
        let top = self.scaled(scale);
        let d = divisor.lower as u64;
        let e = divisor.upper as u64;
        Interval {
            lower: least_floor(top.lower, d, e),
            upper: most_ceil(top.upper, d, e),
        }
    }
}
