// The argument z = (p − b) / (p + b) of the logarithm's series, with b = q · 2^m.
ghost use Rattle.std.specs.Prelude.{◌≡◌, ◌*◌, ◌/◌, ◌≤◌, ◌<◌};
ghost use Rattle.logarithm.specs.Series.{unit};
ghost use Rattle.logarithm.specs.Ends.{Inside, halvings_of, base_of, argument_of};

// m and q · 2^m.
#[derive(Clone, Copy)]
struct Halved {
    times: u64,
    base: u64,
}

// By the lengths of p and q in bits: so many doublings make q as long as p, and one fewer where it is then above p.
fn halve(p: u64, q: u64) -> Halved
    requires { Inside p × (Inside q × (q ≤ p)) }
    ensures { result ≡ record { times = halvings_of p q; base = base_of p q } }
{
    let times = (p.ilog2() - q.ilog2()) as u64;
    let base = q << times;
    if base <= p {
        Halved { times, base }
    } else {
        Halved {
            times: times - 1,
            base: base / 2,
        }
    }
}

// n / d in units of 2^-33, rounded down: long division in three digits of 11 bits.
fn quotient(n: u64, d: u64) -> u64
    requires { (n < d) × (d ≤ 2000000000000000) }
    ensures { result ≡ n * unit / d }
{
    let mut z: u64 = 0;
    let mut rest = n;
    for _i in 0..3u32 {
        let next = rest * 2048;
        z = z * 2048 + next / d;
        rest = next % d;
    }
    z
}

// m and z of p/q.
#[derive(Clone, Copy)]
pub struct Reduced {
    pub times: u64,
    pub argument: u64,
}

pub fn reduce(p: u64, q: u64) -> Reduced
    requires { Inside p × (Inside q × (q ≤ p)) }
    ensures { result ≡ record { times = halvings_of p q; argument = argument_of p q } }
{
    let h = halve(p, q);
    Reduced {
        times: h.times,
        argument: quotient(p - h.base, p + h.base),
    }
}
