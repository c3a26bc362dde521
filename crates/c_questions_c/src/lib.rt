// The entries of `c_questions` in a static library for programs in C: each calls its function there and promises what it promises.
#![tactic(auto)]

ghost use Rattle.std.specs.Prelude.{◌≡◌};
ghost use Rattle.case.specs.declared.Form.TheVariants.{Present, Former};
ghost use Rattle.c_questions.specs.Operations.{SummaryTold, ReleaseTold, CarryTold};
ghost use Rattle.c_questions.specs.Reports.{SoilTold, SplitTold, FewestTold};

// The count of stations. The rows and the summary of the stations are in their tables, as `summary` puts them.
#[unsafe(no_mangle)]
pub extern "C" fn hocsimbur_summary(
    s: &[u8],
    rows: &mut [i64],
    beside: &mut [i64],
    place: &mut [usize],
) -> i64
    ensures { SummaryTold s.now rows.old rows.new beside.old beside.new
        place.old place.new result }
{
    c_questions::hocsimbur_summary(s, rows, beside, place)
}

// The count of stations of the licence: a station, its seasons and its conductor's own cross-section in kcmil, or 0, in turn. Eight numbers
// a station are in the table, as `release` puts them.
#[unsafe(no_mangle)]
pub extern "C" fn hocsimbur_release<'a>(
    s: &'a [u8],
    licence: &'a [u32],
    table: &mut [i64],
    place: &mut [usize],
) -> i64
    ensures { ReleaseTold s.now licence.now table.old table.new place.old
        place.new result }
{
    c_questions::hocsimbur_release(s, licence, table, place)
}

// The count of bytes of a sheet of the former names that is carried over to today's.
#[unsafe(no_mangle)]
pub extern "C" fn hocsimbur_carry(s: &[u8], buffer: &mut [u8], place: &mut [usize]) -> i64
    ensures { CarryTold Present s.now buffer.old buffer.new place.old
        place.new result }
{
    c_questions::hocsimbur_carry(s, buffer, place)
}

// The count of bytes of a sheet of today's names that is carried back to the former ones.
#[unsafe(no_mangle)]
pub extern "C" fn hocsimbur_carry_back(s: &[u8], buffer: &mut [u8], place: &mut [usize]) -> i64
    ensures { CarryTold Former s.now buffer.old buffer.new place.old place.new
        result }
{
    c_questions::hocsimbur_carry_back(s, buffer, place)
}

// The seven numbers of a soil report, from readings of a distance and a resistance in turn.
#[unsafe(no_mangle)]
pub extern "C" fn hocsimbur_soil(readings: &[u32], numbers: &mut [i64], place: &mut [usize]) -> i64
    ensures { SoilTold readings.now numbers.old numbers.new place.old
        place.new result }
{
    c_questions::hocsimbur_soil(readings, numbers, place)
}

// The grid current's two parts and the split, from the numbers of a staged test.
#[unsafe(no_mangle)]
pub extern "C" fn hocsimbur_split(parts: &[i64], numbers: &mut [i64], place: &mut [usize]) -> i64
    ensures { SplitTold parts.now numbers.old numbers.new place.old place.new
        result }
{
    c_questions::hocsimbur_split(parts, numbers, place)
}

// The version of the library.
#[unsafe(no_mangle)]
pub extern "C" fn hocsimbur_version() -> u32
    ensures { result ≡ 20000 }
{
    c_questions::hocsimbur_version()
}

// 1 with the fewest lines, then rods, with which a square yard of this side in mm is answered safe, or 0; all else as in the one value
// line of a sheet, whose own counts, spacing, rods and place are not read.
#[unsafe(no_mangle)]
pub extern "C" fn hocsimbur_fewest(
    s: &[u8],
    side: u32,
    numbers: &mut [i64],
    place: &mut [usize],
) -> i64
    ensures { FewestTold s.now side numbers.old numbers.new place.old
        place.new result }
{
    c_questions::hocsimbur_fewest(s, side, numbers, place)
}
