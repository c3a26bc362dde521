// The numbers of one value line, by what is asked.
#![tactic(auto)]

ghost use Rattle.std.specs.Prelude.{◌≡◌, length};
ghost use Rattle.case.specs.Bounds.{Bounds};
ghost use Rattle.c_line.specs.Line.{width_of, MarginsLine, WorkingLine, HeadroomLine, LineOf};

use c_reply::put_first;
use case::Case;
use headroom::greatest_fault;
use margin::margins;
use row::{ROW_LENGTH, put_row, work_row};
use working::{WORKING_NUMBERS, work, working_numbers};

// What is asked of a value line.
#[derive(Clone, Copy)]
pub enum Question {
    Margins,
    Working,
    Headroom,
}

const MARGIN_NUMBERS: usize = 2;

const HEADROOM_NUMBERS: usize = 1;

// How many numbers a value line has.
pub fn width(question: Question) -> usize
    ensures { result ≡ width_of question }
{
    match question {
        Question::Margins => MARGIN_NUMBERS,
        Question::Working => WORKING_NUMBERS,
        Question::Headroom => HEADROOM_NUMBERS,
    }
}

// The margins of the case's row.
fn put_margins(c: Case, part: &mut [i64])
    requires bounds { Bounds c }
    requires part_len { length part.old ≡ 2 }
    ensures { MarginsLine c part.new }
{
    let mut row = [0i64; ROW_LENGTH];
    put_row(work_row(c), &mut row);
    match margins(&row) {
        Some((mesh, step)) => put_first(&[mesh, step], part),
        // no row has none
        None => {}
    }
}

// The working of the case.
fn put_working(c: Case, part: &mut [i64])
    requires bounds { Bounds c }
    requires part_len { length part.old ≡ 30 }
    ensures { WorkingLine c part.new }
{
    let zs = working_numbers(work(c));
    put_first(&zs, part);
}

// The headroom of the case, or 0 for none.
fn put_headroom(c: Case, part: &mut [i64])
    requires bounds { Bounds c }
    requires part_len { length part.old ≡ 1 }
    ensures { HeadroomLine c part.new }
{
    let fault = greatest_fault(c);
    part[0] = fault as i64;
}

// What is asked of a case, in its own part of the array.
pub fn put_line(question: Question, c: Case, part: &mut [i64])
    requires bounds { Bounds c }
    requires part_len { length part.old ≡ width_of question }
    ensures { LineOf question c part.new }
{
    match question {
        Question::Margins => put_margins(c, part),
        Question::Working => put_working(c, part),
        Question::Headroom => put_headroom(c, part),
    }
}
