// §11.1, §11.3: the questions other than a sheet's rows, asked by a program in C. All follow one convention: the answer is a count of 0 or
// more, or a refusal's number made negative, with line and column in a lent place of two numbers and every other buffer as it was.
// The crate `c_questions_c` exports the entries.
#![tactic(auto)]

ghost use Rattle.std.specs.Prelude.{◌≡◌};
ghost use Rattle.case.specs.declared.Form.TheVariants.{Present, Former};
ghost use Rattle.c_questions.specs.Operations.{SummaryTold, ReleaseTold, CarryTold};
ghost use Rattle.c_questions.specs.Reports.{SoilTold, SplitTold, FewestTold};

use c_reply::{put_fewest, put_soil, put_split, station_count};
use c_tell::tell;
use one_line::fewest_of_sheet;

// Ten thousand times the first number of the version, a hundred times the second, and the third: 2.0.0.
const VERSION: u32 = 20000;

// The count of stations. The rows and the summary of the stations are in their tables, as `summary` puts them.
pub fn hocsimbur_summary(s: &[u8], rows: &mut [i64], beside: &mut [i64], place: &mut [usize]) -> i64
    ensures { SummaryTold s.now rows.old rows.new beside.old beside.new
        place.old place.new result }
{
    let answer = station_count(stations::summary(s, rows, beside));
    tell(answer, place)
}

// The count of stations of the licence: a station, its seasons and its conductor's own cross-section in kcmil, or 0, in turn. Eight numbers
// a station are in the table, as `release` puts them.
pub fn hocsimbur_release<'a>(
    s: &'a [u8],
    licence: &'a [u32],
    table: &mut [i64],
    place: &mut [usize],
) -> i64
    ensures { ReleaseTold s.now licence.now table.old table.new place.old
        place.new result }
{
    let answer = release::release(s, licence, table);
    tell(answer, place)
}

// The count of bytes of a sheet of the former names that is carried over to today's.
pub fn hocsimbur_carry(s: &[u8], buffer: &mut [u8], place: &mut [usize]) -> i64
    ensures { CarryTold Present s.now buffer.old buffer.new place.old
        place.new result }
{
    let answer = conversion::carry(s, buffer);
    tell(answer, place)
}

// The count of bytes of a sheet of today's names that is carried back to the former ones.
pub fn hocsimbur_carry_back(s: &[u8], buffer: &mut [u8], place: &mut [usize]) -> i64
    ensures { CarryTold Former s.now buffer.old buffer.new place.old place.new
        result }
{
    let answer = conversion::carry_back(s, buffer);
    tell(answer, place)
}

// The seven numbers of a soil report, from readings of a distance and a resistance in turn.
pub fn hocsimbur_soil(readings: &[u32], numbers: &mut [i64], place: &mut [usize]) -> i64
    ensures { SoilTold readings.now numbers.old numbers.new place.old
        place.new result }
{
    let answer = put_soil(readings::soil(readings), numbers);
    tell(answer, place)
}

// The grid current's two parts and the split, from the numbers of a staged test.
pub fn hocsimbur_split(parts: &[i64], numbers: &mut [i64], place: &mut [usize]) -> i64
    ensures { SplitTold parts.now numbers.old numbers.new place.old place.new
        result }
{
    let answer = put_split(staged::split(parts), numbers);
    tell(answer, place)
}

// The version of the library.
pub fn hocsimbur_version() -> u32
    ensures { result ≡ 20000 }
{
    VERSION
}

// 1 with the fewest lines, then rods, with which a square yard of this side in mm is answered safe, or 0; all else as in the one value
// line of a sheet, whose own counts, spacing, rods and place are not read.
pub fn hocsimbur_fewest(s: &[u8], side: u32, numbers: &mut [i64], place: &mut [usize]) -> i64
    ensures { FewestTold s.now side numbers.old numbers.new place.old
        place.new result }
{
    let answer = put_fewest(fewest_of_sheet(s, side), numbers);
    tell(answer, place)
}
