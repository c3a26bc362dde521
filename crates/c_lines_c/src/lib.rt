// The entries of `c_lines` in a static library for programs in C: each calls its function there and promises what it promises.
#![tactic(auto)]

ghost use Rattle.c_line.specs.declared.Question.TheVariants.{Margins, Working, Headroom};
ghost use Rattle.c_lines.specs.Lines.{LinesTold};

// Two numbers a value line: how far the mesh voltage lies above the tolerable touch voltage, and the step voltage above the tolerable
// step voltage, in tenths of a percent.
#[unsafe(no_mangle)]
pub extern "C" fn hocsimbur_margins(s: &[u8], numbers: &mut [i64], place: &mut [usize]) -> i64
    ensures { LinesTold Margins s.now numbers.old numbers.new place.old
        place.new result }
{
    c_lines::hocsimbur_margins(s, numbers, place)
}

// Thirty numbers a value line: the lower and the upper end of each quantity of its working.
#[unsafe(no_mangle)]
pub extern "C" fn hocsimbur_working(s: &[u8], numbers: &mut [i64], place: &mut [usize]) -> i64
    ensures { LinesTold Working s.now numbers.old numbers.new place.old
        place.new result }
{
    c_lines::hocsimbur_working(s, numbers, place)
}

// One number a value line: the greatest fault current in amperes at which it, all else equal, is answered safe, or 0.
#[unsafe(no_mangle)]
pub extern "C" fn hocsimbur_headroom(s: &[u8], numbers: &mut [i64], place: &mut [usize]) -> i64
    ensures { LinesTold Headroom s.now numbers.old numbers.new place.old
        place.new result }
{
    c_lines::hocsimbur_headroom(s, numbers, place)
}
