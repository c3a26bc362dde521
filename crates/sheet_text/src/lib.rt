// The rows of a sheet and the summary of its stations as text in a lent buffer.
#![tactic(auto)]

mod summary;

ghost use Rattle.std.specs.Prelude.{◌≤◌, length};
ghost use Rattle.writing.specs.Put.{Put};
ghost use Rattle.sheet_text.specs.Shown.{shown_text};
ghost use Rattle.row_text.specs.Room.{name_bytes, text_room};

use fields::put_refusal;
use judgement::LINES;
use row::ROW_LENGTH;
use row_text::{Shown, put_table};
use sheet::{Answer, sheet};
pub use summary::put_summary;

// A row for each of as many value lines as a sheet may have.
const TABLE: usize = LINES * ROW_LENGTH;

// What is shown of a sheet's rows after a line of names, or the refusal.
pub fn put_sheet(s: &[u8], out: &mut [u8], names: &[u8], what: Shown) -> usize
    requires names_len_bound { length names.now ≤ name_bytes }
    requires text_room_in_bounds { text_room ≤ length out.old }
    ensures { Put out.old 0 (shown_text names.now what s.now) out.new result }
{
    let mut table = [0i64; TABLE];
    let a = sheet(s, &mut table);
    match a {
        Answer::Rows(count) => put_table(out, names, &table, count, ROW_LENGTH, what),
        Answer::Refused(why, line, column) => put_refusal(out, why, line, column),
    }
}
