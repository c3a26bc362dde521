// Soil resistivity from four-pin readings (§9.1). Knows nothing about sheets.
#![tactic(auto)]

mod outside;
mod products;

ghost use Rattle.std.specs.Prelude.{◌≡◌, ◌*◌, ◌≤◌, ◌<◌};
ghost use Rattle.interval.specs.Span.{Span};
ghost use Rattle.readings.specs.Reading.{pairs_of};
ghost use Rattle.readings.specs.Taken.{most_product, most_pairs, Taken};
ghost use Rattle.readings.specs.Refusal.{sound_count};
ghost use Rattle.readings.specs.Ends.{two_pi, most_mean, ends_of, report_of};
ghost use Rattle.readings.specs.Report.{soil_of};
ghost use Rattle.readings.specs.Answer.{Answered};

use interval::Interval;
use outside::{Range, first_outside};
use products::gather;
use refusal::Refused;

// Pairs of ends in micro-ohm metres, and the soil column in ohm metres.
#[derive(Clone, Copy)]
pub struct Report {
    pub least: Interval,
    pub greatest: Interval,
    pub mean: Interval,
    pub soil: u32,
}

// The most numbers of a list.
const NUMBERS: usize = 128;

// The refusals of a list by their numbers: its count, a distance or a resistance out of its range.
const REFUSED_READINGS: u32 = 12;

const REFUSED_DISTANCE: u32 = 13;

const REFUSED_RESISTANCE: u32 = 14;

// In mm.
const DISTANCES: Range = Range {
    low: 500,
    high: 50000,
};

// In milliohms.
const RESISTANCES: Range = Range {
    low: 1,
    high: 1000000,
};

// 2π in 10^-7, rounded down and up.
const TWO_PI_BELOW: u64 = 62831853;

const TWO_PI_ABOVE: u64 = 62831854;

const TWO_PI_UNIT: u64 = 10000000;

// Micro-ohm metres in an ohm metre.
const MICRO: u64 = 1000000;

fn two_pi() -> Interval
    ensures { result ≡ two_pi }
{
    Interval::natural(TWO_PI_BELOW, TWO_PI_ABOVE)
}

// The ends of 2π·s/count, where s is in mm times milliohms.
fn ends(s: u64, count: u64) -> Interval
    requires count_nonzero { (0 < count) × (count ≤ most_pairs) }
    requires s_bound { s ≤ count * most_product }
    ensures { result ≡ ends_of s count }
{
    two_pi().wide_product(Interval::point(s), count * TWO_PI_UNIT)
}

// The upper end in whole ohm metres, rounded up.
fn whole(mean: Interval) -> u32
    requires { Span mean 0 most_mean most_mean }
    ensures { result ≡ soil_of mean }
{
    (mean.upper as u64).div_ceil(MICRO) as u32
}

fn work_report(readings: &[u32]) -> Report
    requires { Taken readings.now }
    ensures { result ≡ report_of (pairs_of readings.now) }
{
    let t = gather(readings);
    let count = (readings.len() / 2) as u64;
    let mean = ends(t.total, count);
    Report {
        least: ends(t.least, 1),
        greatest: ends(t.greatest, 1),
        mean,
        soil: whole(mean),
    }
}

fn sound_count(n: usize) -> bool
    ensures { result ≡ sound_count n }
{
    n % 2 == 0 && (1..=NUMBERS).contains(&n)
}

// The report on a list of readings, a distance in mm and a resistance in milliohms in turn.
pub fn soil(readings: &[u32]) -> Result<Report, Refused>
    ensures { Answered readings.now result }
{
    if !sound_count(readings.len()) {
        return Err(Refused(REFUSED_READINGS, 0, 0));
    }
    let distance = first_outside(readings, 1, DISTANCES);
    if let Some(line) = distance {
        return Err(Refused(REFUSED_DISTANCE, line, 1));
    }
    let resistance = first_outside(readings, 2, RESISTANCES);
    if let Some(line) = resistance {
        return Err(Refused(REFUSED_RESISTANCE, line, 2));
    }
    Ok(work_report(readings))
}
