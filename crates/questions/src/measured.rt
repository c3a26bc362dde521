// What was measured: four-pin readings, and the parts of the currents of a staged test.
use gate::{numbers, read, refused, unknown};
use hocsimbur::{GridShare, Refused, Report, soil, split};

// The greatest number of readings of a line: more than a list may have, so that too many are refused.
const READINGS: usize = 160;

// The greatest number of parts of a line: more than a test may have.
const PARTS: usize = 64;

// More than the size of a part may be.
const LARGEST_PART: i64 = 999_999_999_999_999_999;

fn report(rt: &impl Print, r: Report) {
    let least = r.least;
    let greatest = r.greatest;
    let mean = r.mean;
    let all = [
        least.lower,
        least.upper,
        greatest.lower,
        greatest.upper,
        mean.lower,
        mean.upper,
        i64::from(r.soil),
    ];
    numbers(rt, &all);
}

fn print_sounding(rt: &impl Print, s: Result<Report, Refused>) {
    match s {
        Ok(r) => report(rt, r),
        Err(Refused(why, line, column)) => refused(rt, why, line, column),
    }
}

// The soil of some readings: `unknown` where the fields are not a list of 32-bit numbers.
pub fn ask_soil(rt: &impl Print, fields: &[u8]) {
    let mut space = [0u32; READINGS];
    match read(fields, 0..=i64::from(u32::MAX), &mut space) {
        Some(readings) => print_sounding(rt, soil(readings)),
        None => unknown(rt),
    }
}

fn grid(rt: &impl Print, share: GridShare) {
    let _ = println!(rt;
        "{},{},{}",
        share.in_phase, share.quadrature, share.per_mille
    );
}

fn print_split(rt: &impl Print, a: Result<GridShare, Refused>) {
    match a {
        Ok(split) => grid(rt, split),
        Err(Refused(why, line, column)) => refused(rt, why, line, column),
    }
}

// The split of a staged test: `unknown` where the fields are not a list of numbers.
pub fn ask_split(rt: &impl Print, fields: &[u8]) {
    let mut space = [0i64; PARTS];
    match read(fields, -LARGEST_PART..=LARGEST_PART, &mut space) {
        Some(parts) => print_split(rt, split(parts)),
        None => unknown(rt),
    }
}
