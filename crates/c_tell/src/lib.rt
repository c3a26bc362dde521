// §11.1: an answer as reported to a program in C: one signed number, and where a refusal points.
#![tactic(auto)]

ghost use Rattle.std.specs.Prelude.{◌≡◌};
ghost use Rattle.c_tell.specs.Answer.{signed_answer};
ghost use Rattle.c_tell.specs.Place.{place_after};
ghost use Rattle.c_tell.specs.Room.{Few};
ghost use Rattle.c_tell.specs.Told.{Told};

use refusal::Refused;

// The count, or the refusal's number made negative.
pub fn signed_answer(answer: Result<usize, Refused>) -> i64
    requires { Few answer }
    ensures { result ≡ signed_answer answer }
{
    match answer {
        Ok(count) => count as i64,
        Err(Refused(number, _, _)) => 0 - (number as i64),
    }
}

// Line and column of a refusal, where there is room for both.
pub fn put_place(answer: Result<usize, Refused>, place: &mut [usize])
    ensures { place.new ≡ place_after answer place.old }
{
    match answer {
        Ok(_) => {}
        Err(Refused(_, line, column)) => {
            if 2 <= place.len() {
                place[0] = line;
                place[1] = column;
            }
        }
    }
}

// Both.
pub fn tell(answer: Result<usize, Refused>, place: &mut [usize]) -> i64
    requires { Few answer }
    ensures { Told answer place.old place.new result }
{
    put_place(answer, place);
    signed_answer(answer)
}
