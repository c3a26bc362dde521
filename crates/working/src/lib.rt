// The working of a case: the quantities between its record and its row, as IEEE Std 80's Annex B prints them.
#![tactic(auto)]

ghost use Rattle.std.specs.Prelude.{◌≡◌, pos, ◌*◌, ◌≤◌};
ghost use Rattle.interval.specs.Operations.{point};
ghost use Rattle.case.specs.Bounds.{Bounds};
ghost use Rattle.step.specs.Ends.{ls_twentieths};
ghost use Rattle.working.specs.Ends.{cs_ends, working_of};
ghost use Rattle.working.specs.Numbers.{working_numbers};
ghost use Rattle.working.specs.Working.{WorkingAnswered};

use case::{Case, judge};
use interval::Interval;
use refusal::Refused;

// How many numbers a working has: two ends of fifteen quantities.
pub const WORKING_NUMBERS: usize = 30;

// A pair of ends for each quantity.
#[derive(Clone, Copy)]
pub struct Quantities {
    // Cs, 10^-9
    pub cs: Interval,
    // √t of the shock time, 10^-8 of √s
    pub root_time: Interval,
    // √area, and the lengths Lc, LR, LT, LM and LS: micrometres
    pub side: Interval,
    pub lc: Interval,
    pub lr: Interval,
    pub lt: Interval,
    pub lm: Interval,
    pub ls: Interval,
    // 10^-7
    pub n: Interval,
    // 10^-10
    pub ki: Interval,
    // 10^-9
    pub kii: Interval,
    pub kh: Interval,
    // 10^-7, and 10^-7 per metre
    pub km: Interval,
    pub ks: Interval,
    // ρ·Ki·IG/LM, millivolts
    pub driven: Interval,
}

// Cs in 10^-9: with a layer the quotient of two whole numbers.
fn cs(c: Case) -> Interval
    requires { Bounds c }
    ensures { result ≡ cs_ends c }
{
    if c.layer == 0 {
        return Interval::point(1000000000);
    }
    let layer = c.layer as u64;
    let thick = c.thick as u64;
    let derated = 2 * (layer * thick) + 90 * (c.soil as u64);
    Interval::point(derated).quotient(Interval::point(layer * (2 * thick + 90)), 1000000000)
}

// Millimetres in micrometres.
fn in_micrometres(mm: u64) -> Interval
    requires { mm ≤ 38000000 }
    ensures { result ≡ point (pos (1000 * mm)) }
{
    Interval::point(1000 * mm)
}

// LS in micrometres, of which a twentieth of a millimetre has 50.
fn step_in_micrometres(c: Case) -> Interval
    requires { Bounds c }
    ensures { result ≡ point (pos (50 * ls_twentieths c)) }
{
    Interval::point(50 * step::ls(c))
}

// The working of a case within its bounds.
pub fn work(c: Case) -> Quantities
    requires { Bounds c }
    ensures { result ≡ working_of c }
{
    let current = current::ig(c, decrement::df(c));
    let by = by_counts::by_counts(c.across, c.along);
    let n = by.n;
    let drive = drive::drive(c, n, current);
    let lm = mesh::lm(c);
    Quantities {
        cs: cs(c),
        root_time: tolerable::time_root(c),
        side: resistance::side_term(c),
        lc: in_micrometres(lengths::lc(c)),
        lr: in_micrometres(lengths::lr(c)),
        lt: in_micrometres(lengths::lt(c)),
        lm,
        ls: step_in_micrometres(c),
        n,
        ki: effective_number::ki(n),
        kii: mesh::kii(c, by),
        kh: mesh::kh(c),
        km: mesh::km(c, by),
        ks: step::ks(c, by),
        driven: mesh::driven(c, lm, drive),
    }
}

// The working of a case, after the checks of a record.
pub fn working(c: Case) -> Result<Quantities, Refused>
    ensures { WorkingAnswered c result }
{
    judge(c)?;
    Ok(work(c))
}

// The ends in the order of the quantities.
pub fn working_numbers(w: Quantities) -> [i64; WORKING_NUMBERS]
    ensures { result ≡ working_numbers w }
{
    [
        w.cs.lower,
        w.cs.upper,
        w.root_time.lower,
        w.root_time.upper,
        w.side.lower,
        w.side.upper,
        w.lc.lower,
        w.lc.upper,
        w.lr.lower,
        w.lr.upper,
        w.lt.lower,
        w.lt.upper,
        w.lm.lower,
        w.lm.upper,
        w.ls.lower,
        w.ls.upper,
        w.n.lower,
        w.n.upper,
        w.ki.lower,
        w.ki.upper,
        w.kii.lower,
        w.kii.upper,
        w.kh.lower,
        w.kh.upper,
        w.km.lower,
        w.km.upper,
        w.ks.lower,
        w.ks.upper,
        w.driven.lower,
        w.driven.upper,
    ]
}
