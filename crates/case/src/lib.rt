// One case: the values of one value line, and their checks.
#![tactic(auto)]

mod parts;
mod range;
mod refusals;

ghost use Rattle.std.specs.Prelude.{◌≡◌, length};
ghost use Rattle.case.specs.Columns.{name_count};
ghost use Rattle.case.specs.Case.{values, case_of};
ghost use Rattle.case.specs.Check.{finding, record_finding, record_judged};
ghost use Rattle.case.specs.Parts.{form_of};

use parts::{disagreement, out_of_range};
use range::all_in_range;
pub use range::place;
use refusal::Refused;
pub use refusals::{
    REFUSED_COUNTS, REFUSED_FORM, REFUSED_HERTZ, REFUSED_LICENCE, REFUSED_LINES, REFUSED_NAME,
    REFUSED_NO_RODLEN, REFUSED_PARTS, REFUSED_RANGE, REFUSED_RELEASE, REFUSED_REPEATED,
    REFUSED_SHORT, REFUSED_SIDE, REFUSED_STATION, REFUSED_SUMMARY, REFUSED_TEXT, REFUSED_TIMES,
};

// The forms of a sheet: today's (§1.2), and the former one (§8.1).
#[derive(Clone, Copy)]
pub enum Form {
    Present,
    Former,
}

// How many names the table of each form has.
pub const NAMES: usize = 22;

pub const FORMER_NAMES: usize = 18;

// How many names the two forms have between them.
pub const ALL_NAMES: usize = NAMES + 2;

// The numbers of the table of names, in its order and units.
#[derive(Clone, Copy)]
pub struct Case {
    pub station: u32,
    pub season: u32,
    pub soil: u32,
    pub layer: u32,
    pub thick: u32,
    pub shock: u32,
    pub clear: u32,
    pub wire: u32,
    pub body: u32,
    pub fault: u32,
    pub split: u32,
    pub xr: u32,
    pub across: u32,
    pub along: u32,
    pub space: u32,
    pub depth: u32,
    pub dia: u32,
    pub rods: u32,
    pub rodlen: u32,
    pub place: u32,
    pub metal: u32,
    pub hz: u32,
}

// What the checks of a case find, with the column at fault.
#[derive(Clone, Copy)]
pub enum Finding {
    Sound,
    OutOfRange(usize),
    Disagreement(usize),
}

// How many names a form has.
pub fn name_count(form: Form) -> usize
    ensures { result ≡ length (form_of form) }
{
    match form {
        Form::Present => NAMES,
        Form::Former => FORMER_NAMES,
    }
}

// The case of the values in the order of the names.
pub fn case_of(v: &[u32]) -> Case
    requires { length v.now ≡ name_count }
    ensures { result ≡ case_of v.now }
{
    Case {
        station: v[0],
        season: v[1],
        soil: v[2],
        layer: v[3],
        thick: v[4],
        shock: v[5],
        clear: v[6],
        wire: v[7],
        body: v[8],
        fault: v[9],
        split: v[10],
        xr: v[11],
        across: v[12],
        along: v[13],
        space: v[14],
        depth: v[15],
        dia: v[16],
        rods: v[17],
        rodlen: v[18],
        place: v[19],
        metal: v[20],
        hz: v[21],
    }
}

// The values of a case in the order of the names.
fn values_of(c: Case) -> [u32; NAMES]
    ensures { result ≡ values c }
{
    [
        c.station, c.season, c.soil, c.layer, c.thick, c.shock, c.clear, c.wire, c.body, c.fault,
        c.split, c.xr, c.across, c.along, c.space, c.depth, c.dia, c.rods, c.rodlen, c.place,
        c.metal, c.hz,
    ]
}

// Refusals 5 and 6 of the values of a form; at holds the columns of the names.
pub fn check_values<'a>(form: Form, at: &'a [usize], v: &'a [u32]) -> Finding
    requires at_len { length at.now ≡ length (form_of form) }
    requires v_len { length v.now ≡ length (form_of form) }
    ensures { result ≡ finding (form_of form) at.now v.now }
{
    if all_in_range(form, v) {
        return disagreement(form, at, v);
    }
    let column = out_of_range(form, at, v);
    if column != 0 {
        return Finding::OutOfRange(column);
    }
    disagreement(form, at, v)
}

// The places of the names, from 1.
const PLACES: [usize; NAMES] = [
    1, 2, 3, 4, 5, 6, 7, 8, 9, 10, 11, 12, 13, 14, 15, 16, 17, 18, 19, 20, 21, 22,
];

// Refusals 5 and 6 of a record, whose columns are the places of the names.
fn check(c: Case) -> Finding
    ensures { result ≡ record_finding c }
{
    let at = PLACES;
    let v = values_of(c);
    check_values(Form::Present, &at, &v)
}

// The refusal of a record, if its checks find a fault.
pub fn judge(c: Case) -> Result<(), Refused>
    ensures { result ≡ record_judged c }
{
    match check(c) {
        Finding::Sound => Ok(()),
        Finding::OutOfRange(column) => Err(Refused(REFUSED_RANGE, 0, column)),
        Finding::Disagreement(column) => Err(Refused(REFUSED_PARTS, 0, column)),
    }
}
