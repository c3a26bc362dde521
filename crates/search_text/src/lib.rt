// The search for the fewest lines as text in a lent buffer.
#![tactic(auto)]

ghost use Rattle.std.specs.Prelude.{◌≤◌, ◌≡◌, length};
ghost use Rattle.text.specs.Value.{field_value};
ghost use Rattle.writing.specs.Put.{Put};
ghost use Rattle.search_text.specs.Fewest.{side_of, input_answer, search_text, fewest_text};
ghost use Rattle.fields.specs.Refusal.{refusal_bytes};

use case::REFUSED_TEXT;
use fields::{put_numbered, put_refusal};
use judgement::BYTES;
use one_line::fewest_of_sheet;
use refusal::Refused;
use text::{find, skip, value};
use yards::FewestLines;

// The most bytes of an input: the line of a side, six digits and its byte 10, and a sheet.
pub const INPUT: usize = 7 + BYTES;

// The side that a line says, or 0, which is out of range.
fn side_of(line: &[u8]) -> u32
    ensures { result ≡ side_of (field_value line.now) }
{
    value(line).unwrap_or(0)
}

// The answer to an input: a line with the side, then a sheet of one value line.
fn answer_to(s: &[u8]) -> Result<FewestLines, Refused>
    ensures { result ≡ input_answer s.now }
{
    if INPUT < s.len() {
        return Err(Refused(REFUSED_TEXT, 0, 0));
    }
    let e = find(s, 10);
    let side = side_of(&s[..e]);
    let next = skip(e, s.len());
    fewest_of_sheet(&s[next..], side)
}

// Lines, rods and yards tried; how many yards were tried, none of them safe; or the refusal.
fn put_search(out: &mut [u8], answer: Result<FewestLines, Refused>) -> usize
    requires { refusal_bytes ≤ length out.old }
    ensures { Put out.old 0 (search_text answer) out.new result }
{
    match answer {
        Ok(FewestLines::Found(lines, rods, tried)) => {
            let numbers = [lines as u64, rods as u64, tried as u64];
            put_numbered(out, b"found", &numbers)
        }
        Ok(FewestLines::None(tried)) => {
            let numbers = [tried as u64];
            put_numbered(out, b"none", &numbers)
        }
        Err(Refused(why, line, column)) => put_refusal(out, why, line, column),
    }
}

pub fn put_fewest(s: &[u8], out: &mut [u8]) -> usize
    requires { refusal_bytes ≤ length out.old }
    ensures { Put out.old 0 (fewest_text s.now) out.new result }
{
    put_search(out, answer_to(s))
}
