// What operations answer, for a program in C: the numbers of a report in an array that the caller lends, the count of stations.
#![tactic(auto)]

ghost use Rattle.std.specs.Prelude.{◌≡◌, ◌++◌, ◌≤◌, length, drop};
ghost use Rattle.c_reply.specs.Stations.{station_count};
ghost use Rattle.c_reply.specs.Reply.{Numbers, soil_numbers, soil_reply, split_reply, SmallSplit, fewest_reply, Replied};

use case::REFUSED_SHORT;
use readings::Report;
use refusal::Refused;
use staged::GridShare;
use stations::Counts;
use yards::FewestLines;

const SOIL_NUMBERS: usize = 7;

const SPLIT_NUMBERS: usize = 3;

// Some numbers over the first of others.
pub fn put_first(zs: &[i64], numbers: &mut [i64])
    requires { length zs.now ≤ length numbers.old }
    ensures { numbers.new ≡ zs.now ++ drop (length zs.now) numbers.old }
{
    numbers[..zs.len()].copy_from_slice(zs);
}

// The numbers where there is room for them.
fn reply(count: usize, zs: &[i64], numbers: &mut [i64]) -> Result<usize, Refused>
    ensures { Replied (Numbers count zs.now) numbers.old numbers.new result }
{
    if numbers.len() < zs.len() {
        return Err(Refused(REFUSED_SHORT, 0, 0));
    }
    put_first(zs, numbers);
    Ok(count)
}

fn report_numbers(report: Report) -> [i64; SOIL_NUMBERS]
    ensures { result ≡ soil_numbers report }
{
    let least = report.least;
    let greatest = report.greatest;
    let mean = report.mean;
    [
        least.lower,
        least.upper,
        greatest.lower,
        greatest.upper,
        mean.lower,
        mean.upper,
        report.soil as i64,
    ]
}

// The seven numbers of a report, or a refusal.
pub fn put_soil(answer: Result<Report, Refused>, numbers: &mut [i64]) -> Result<usize, Refused>
    ensures { Replied (soil_reply answer) numbers.old numbers.new result }
{
    let zs = report_numbers(answer?);
    reply(SOIL_NUMBERS, &zs, numbers)
}

// The grid current's two parts and the split, or a refusal.
pub fn put_split(answer: Result<GridShare, Refused>, numbers: &mut [i64]) -> Result<usize, Refused>
    requires { SmallSplit answer }
    ensures { Replied (split_reply answer) numbers.old numbers.new result }
{
    let split = answer?;
    let zs = [split.in_phase, split.quadrature, split.per_mille as i64];
    reply(SPLIT_NUMBERS, &zs, numbers)
}

// The lines, the rods and how many yards were tried, of which the last is safe or none is; or a refusal.
pub fn put_fewest(
    answer: Result<FewestLines, Refused>,
    numbers: &mut [i64],
) -> Result<usize, Refused>
    ensures { Replied (fewest_reply answer) numbers.old numbers.new result }
{
    match answer? {
        FewestLines::Found(lines, rods, tried) => {
            let zs = [lines as i64, rods as i64, tried as i64];
            reply(1, &zs, numbers)
        }
        FewestLines::None(tried) => {
            let zs = [0, 0, tried as i64];
            reply(0, &zs, numbers)
        }
    }
}

// The count of stations of a summary.
pub fn station_count(summed: Result<Counts, Refused>) -> Result<usize, Refused>
    ensures { result ≡ station_count summed }
{
    Ok(summed?.stations)
}
