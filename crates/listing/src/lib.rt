// What the programs print, as text in a buffer that the caller lends.
#![tactic(auto)]

ghost use Rattle.std.specs.Prelude.{◌≤◌, length};
ghost use Rattle.writing.specs.Put.{Put};
ghost use Rattle.listing.specs.Programs.{program_text};
ghost use Rattle.row_text.specs.Room.{text_room};
ghost use Rattle.listing.specs.Told.{Told};

use carry_text::put_carried;
use case::Form;
use judgement::LINES;
use row::ROW_LENGTH;
use row_text::Shown;
pub use search_text::INPUT;
use search_text::put_fewest;
use sheet_text::{put_sheet, put_summary};

// The programs, each by what it prints.
#[derive(Clone, Copy)]
pub enum Program {
    Verdict,
    Rows,
    Margins,
    Summary,
    Fewest,
    Carry,
    CarryBack,
}

// The most bytes of a field with the comma or the byte 10 after it: a sign, twenty digits, and that byte.
const FIELD: usize = 22;

// The bytes of the longest line of names, that of the rows.
const NAMES: usize = 352;

// No text of any program is longer: a line of names, and the fields of a row for each of as many value lines as a sheet may have.
pub const TEXT: usize = NAMES + LINES * (FIELD * ROW_LENGTH);

// The text of a program in a buffer with room for the longest.
fn put_text(program: Program, s: &[u8], out: &mut [u8]) -> usize
    requires { text_room ≤ length out.old }
    ensures { Put out.old 0 (program_text program s.now) out.new result }
{
    match program {
        Program::Verdict => put_sheet(s, out, b"station,season,verdict,kcmil\n", Shown::Verdict),
        Program::Rows => put_sheet(
            s,
            out,
            b"station,season,verdict,size_kcmil,grid_current_lower_uA,grid_current_upper_uA,factor_lower_billionths,factor_upper_billionths,tolerable_touch_lower_mV,tolerable_touch_upper_mV,tolerable_step_lower_mV,tolerable_step_upper_mV,mesh_lower_mV,mesh_upper_mV,step_lower_mV,step_upper_mV,resistance_lower_uohm,resistance_upper_uohm,rise_lower_mV,rise_upper_mV\n",
            Shown::Numbers,
        ),
        Program::Margins => put_sheet(
            s,
            out,
            b"station,season,verdict,mesh_excess_per_mille,step_excess_per_mille\n",
            Shown::Margins,
        ),
        Program::Summary => put_summary(s, out),
        Program::Fewest => put_fewest(s, out),
        Program::Carry => put_carried(Form::Present, s, out),
        Program::CarryBack => put_carried(Form::Former, s, out),
    }
}

// What a program prints of its input, at the start of a buffer of at least TEXT bytes; answers how many bytes that is, and 0 with a shorter
// buffer, which keeps what it holds.
pub fn text(program: Program, s: &[u8], out: &mut [u8]) -> usize
    ensures { Told text_room (program_text program s.now) out.old out.new result }
{
    if out.len() < TEXT {
        return 0;
    }
    put_text(program, s, out)
}
