// The entries of `c_entry` in a static library for programs in C: each calls its function there and promises what it promises.
#![tactic(auto)]

ghost use Rattle.c_entry.specs.Buffer.{Answered, AnsweredAt};

// The count of rows, or the refusal's number made negative. The rows are in the buffer, each number as eight bytes; a refusal leaves it
// as it was.
#[unsafe(no_mangle)]
pub extern "C" fn hocsimbur_rows(s: &[u8], buffer: &mut [u8]) -> i64
    ensures { Answered s.now buffer.old buffer.new result }
{
    c_entry::hocsimbur_rows(s, buffer)
}

// The same, and where it is a refusal its line and column in the first two numbers of `place`.
#[unsafe(no_mangle)]
pub extern "C" fn hocsimbur_rows_at(s: &[u8], buffer: &mut [u8], place: &mut [usize]) -> i64
    ensures { AnsweredAt s.now buffer.old buffer.new place.old place.new result }
{
    c_entry::hocsimbur_rows_at(s, buffer, place)
}
