// Products of whole numbers over a divisor, where the product may pass 64 bits and the quotient does not.
ghost use Rattle.std.specs.Prelude.{◌≡◌, ◌*◌, ◌/◌};
ghost use Rattle.whole.specs.Whole.{ceil_div};
ghost use Rattle.whole.specs.Wide.{WideFits};

// k · x / den, rounded down.
pub fn floor(k: u64, x: u64, den: u64) -> u64
    requires { WideFits k x den }
    ensures { result ≡ k * x / den }
{
    k * (x / den) + k * (x % den) / den
}

// k · x / den, rounded up.
pub fn ceil(k: u64, x: u64, den: u64) -> u64
    requires { WideFits k x den }
    ensures { result ≡ ceil_div (k * x) den }
{
    k * (x / den) + (k * (x % den) + (den - 1)) / den
}
