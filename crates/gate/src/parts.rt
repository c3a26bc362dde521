// The parts of a text, each ended by a byte.
ghost use Rattle.std.specs.Prelude.{◌≡◌, ◌+◌, drop, take};
ghost use Rattle.text.specs.Text.{index_of};

use text::find;

// The first part of s, which ends before the byte b or with s, and what is after that byte.
pub fn first_part(s: &[u8], b: u8) -> (&[u8], &[u8])
    ensures part { result.0.now ≡ take (index_of b s.now) s.now }
    ensures rest { result.1.now ≡ drop (index_of b s.now + 1) s.now }
{
    let (part, rest) = s.split_at(find(s, b));
    match rest {
        [_, after @ ..] => (part, after),
        [] => (part, rest),
    }
}
