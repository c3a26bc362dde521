// A sheet carried over to the other form, or the refusal, as text in a lent buffer.
#![tactic(auto)]

ghost use Rattle.std.specs.Prelude.{◌≤◌, length};
ghost use Rattle.writing.specs.Put.{Put};
ghost use Rattle.conversion.specs.Answer.{Answered};
ghost use Rattle.carry_text.specs.Carried.{carry_text};
ghost use Rattle.judgement.specs.Limits.{most_bytes};

use case::Form;
use conversion::{carry, carry_back};
use fields::put_refusal;
use refusal::Refused;

// A sheet carried over to a form.
fn carry_to(form: Form, s: &[u8], out: &mut [u8]) -> Result<usize, Refused>
    ensures { Answered form s.now out.old out.new result }
{
    match form {
        Form::Present => carry(s, out),
        Form::Former => carry_back(s, out),
    }
}

// The sheet in a form, or the refusal. A sheet that is carried over has room, so that it is never refused with 8.
pub fn put_carried(form: Form, s: &[u8], out: &mut [u8]) -> usize
    requires { most_bytes ≤ length out.old }
    ensures { Put out.old 0 (carry_text form s.now) out.new result }
{
    match carry_to(form, s, out) {
        Ok(count) => count,
        Err(Refused(why, line, column)) => put_refusal(out, why, line, column),
    }
}
