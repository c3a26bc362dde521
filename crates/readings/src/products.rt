// The least, the greatest and the sum of a·R over all pairs.
ghost use Rattle.std.specs.Prelude.{◌≡◌, ◌+◌, ◌<◌, ◌^◌};
ghost use Rattle.readings.specs.Reading.{pairs_of};
ghost use Rattle.readings.specs.Taken.{Taken};
ghost use Rattle.readings.specs.Ends.{with_product, products_of};

// In mm times milliohms.
#[derive(Clone, Copy)]
pub struct Products {
    pub least: u64,
    pub greatest: u64,
    pub total: u64,
}

// With s, the a·R of one pair more.
fn with(s: u64, t: Products) -> Products
    requires { s + t.total < 2 ^ 63 }
    ensures { result ≡ with_product s t }
{
    Products {
        least: s.min(t.least),
        greatest: s.max(t.greatest),
        total: s + t.total,
    }
}

// From the last pair to the first, as they are defined. From the first on, the compiler takes several at once, and a report takes a quarter
// more instructions: the vector instructions that every x86-64 processor has do not compare numbers of 64 bits.
pub fn gather(readings: &[u32]) -> Products
    requires { Taken readings.now }
    ensures { result ≡ products_of (pairs_of readings.now) }
{
    let mut t = Products {
        least: u64::MAX,
        greatest: 0,
        total: 0,
    };
    let (pairs, _) = readings.as_chunks::<2>();
    for i in (0..pairs.len()).rev() {
        let [a, r] = pairs[i];
        t = with(a as u64 * r as u64, t);
    }
    t
}
