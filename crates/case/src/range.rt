// The table of ranges, and the places of the names in it.
ghost use Rattle.std.specs.Prelude.{ℕ, ◌≡◌, ◌<◌, true, length, map};
ghost use Rattle.case.specs.Columns.{columns, all_columns, name_count, in_range};
ghost use Rattle.case.specs.Parts.{numbers_of, passes, range_at, form_of, SameColumn, InRanges};

use crate::{ALL_NAMES, FORMER_NAMES, Form, NAMES};

// A range as three numbers: its low end, its high end, and one value more that is in it; the low end again where there is none.
#[derive(Clone, Copy)]
pub struct Range {
    pub low: u32,
    pub high: u32,
    pub other: u32,
}

impl Range {
    // Whether a value is in the range.
    pub fn holds(self, v: u32) -> bool
        ensures { result ≡ passes self v }
    {
        ((self.low <= v) & (v <= self.high)) | (v == self.other)
    }
}

// The ranges of today's names in their order, then of those that only the former form has.
static RANGES: [Range; ALL_NAMES] = [
    // station
    Range {
        low: 1,
        high: 65535,
        other: 1,
    },
    // season
    Range {
        low: 1,
        high: 4,
        other: 1,
    },
    // soil
    Range {
        low: 10,
        high: 5000,
        other: 10,
    },
    // layer
    Range {
        low: 100,
        high: 10000,
        other: 0,
    },
    // thick
    Range {
        low: 20,
        high: 300,
        other: 0,
    },
    // shock
    Range {
        low: 9,
        high: 3000,
        other: 9,
    },
    // clear
    Range {
        low: 9,
        high: 3000,
        other: 9,
    },
    // wire
    Range {
        low: 9,
        high: 3000,
        other: 9,
    },
    // body
    Range {
        low: 50,
        high: 50,
        other: 70,
    },
    // fault
    Range {
        low: 100,
        high: 80000,
        other: 100,
    },
    // split
    Range {
        low: 1,
        high: 1000,
        other: 1,
    },
    // xr
    Range {
        low: 1,
        high: 40,
        other: 1,
    },
    // across
    Range {
        low: 2,
        high: 25,
        other: 2,
    },
    // along
    Range {
        low: 2,
        high: 25,
        other: 2,
    },
    // space
    Range {
        low: 2500,
        high: 30000,
        other: 2500,
    },
    // depth
    Range {
        low: 250,
        high: 2500,
        other: 250,
    },
    // dia
    Range {
        low: 50,
        high: 300,
        other: 50,
    },
    // rods
    Range {
        low: 0,
        high: 200,
        other: 0,
    },
    // rodlen
    Range {
        low: 1000,
        high: 10000,
        other: 0,
    },
    // place
    Range {
        low: 0,
        high: 2,
        other: 0,
    },
    // metal
    Range {
        low: 1,
        high: 11,
        other: 1,
    },
    // hz
    Range {
        low: 50,
        high: 50,
        other: 60,
    },
    // ms
    Range {
        low: 9,
        high: 3000,
        other: 9,
    },
    // lines
    Range {
        low: 2,
        high: 25,
        other: 2,
    },
];

// That table.
fn all_ranges() -> &'static [Range; ALL_NAMES]
    ensures { result.now ≡ map (λ c. numbers_of c.range) all_columns }
{
    &RANGES
}

// The places in the table of the former form's names. The names themselves stand in the same order in `header`.
static FORMER: [usize; FORMER_NAMES] = [
    0, 1, 2, 3, 4, 22, 8, 9, 10, 11, 23, 14, 15, 16, 17, 18, 19, 20,
];

// The place in the table of the name with index k of a form.
pub fn place(form: Form, k: usize) -> usize
    requires { k < length (form_of form) }
    ensures { SameColumn form k result }
{
    match form {
        Form::Present => k,
        Form::Former => FORMER[k],
    }
}

// The range of the name with index k of a form.
pub fn range_of(form: Form, k: usize) -> Range
    requires { k < length (form_of form) }
    ensures { (v : ℕ) → passes result v ≡ in_range (range_at (form_of form) k) v }
{
    all_ranges()[place(form, k)]
}

// Whether every value of today's form is in its range. Where it is not, the values are searched again for the column. The count of turns
// is a constant and no test ends the loop, so that several values are compared at once: by `zip` and `all` it takes four times as long.
fn present_in_range(v: &[u32]) -> bool
    requires { length v.now ≡ name_count }
    ensures { result ≡ true → InRanges columns v.now }
{
    let mut all = true;
    for k in 0..NAMES {
        all &= range_of(Form::Present, k).holds(v[k]);
    }
    all
}

// Whether every value of a form is known to be in its range.
pub fn all_in_range(form: Form, v: &[u32]) -> bool
    requires { length v.now ≡ length (form_of form) }
    ensures { result ≡ true → InRanges (form_of form) v.now }
{
    match form {
        Form::Present => present_in_range(v),
        Form::Former => false,
    }
}
