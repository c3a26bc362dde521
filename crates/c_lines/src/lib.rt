// Numbers of every value line of a sheet, asked by a program in C: margins, working and headroom. All three follow one convention (§11.1):
// the answer is the count of value lines, or a refusal's number made negative, with line and column in a lent place of two numbers and the
// array as it was. The crate `c_lines_c` exports the entries.
#![tactic(auto)]

mod lines;

ghost use Rattle.c_line.specs.declared.Question.TheVariants.{Margins, Working, Headroom};
ghost use Rattle.c_lines.specs.Lines.{LinesTold};

use c_line::Question;
use c_tell::tell;
use lines::answer_lines;

// The answer of a question as reported to C.
fn tell_lines(question: Question, s: &[u8], numbers: &mut [i64], place: &mut [usize]) -> i64
    ensures { LinesTold question s.now numbers.old numbers.new place.old
        place.new result }
{
    let answer = answer_lines(question, s, numbers);
    tell(answer, place)
}

// Two numbers a value line: how far the mesh voltage lies above the tolerable touch voltage, and the step voltage above the tolerable
// step voltage, in tenths of a percent.
pub fn hocsimbur_margins(s: &[u8], numbers: &mut [i64], place: &mut [usize]) -> i64
    ensures { LinesTold Margins s.now numbers.old numbers.new place.old
        place.new result }
{
    tell_lines(Question::Margins, s, numbers, place)
}

// Thirty numbers a value line: the lower and the upper end of each quantity of its working.
pub fn hocsimbur_working(s: &[u8], numbers: &mut [i64], place: &mut [usize]) -> i64
    ensures { LinesTold Working s.now numbers.old numbers.new place.old
        place.new result }
{
    tell_lines(Question::Working, s, numbers, place)
}

// One number a value line: the greatest fault current in amperes at which it, all else equal, is answered safe, or 0.
pub fn hocsimbur_headroom(s: &[u8], numbers: &mut [i64], place: &mut [usize]) -> i64
    ensures { LinesTold Headroom s.now numbers.old numbers.new place.old
        place.new result }
{
    tell_lines(Question::Headroom, s, numbers, place)
}
