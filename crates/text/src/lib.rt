// Text of bytes: lines, fields and values.
#![tactic(auto)]

ghost use Rattle.std.specs.Prelude.{◌≡◌, ◌≤◌, false, length, IfSome};
ghost use Rattle.text.specs.Text.{index_of, lines_of, same as same_text};
ghost use Rattle.text.specs.Value.{field_value};
ghost use Rattle.text.specs.Parts.{Passed, count_of, digits_value, Skipped, IsFirst, IsFront};

use std::num::wrapping_sub_u32;

// The first field of a line: where it ends, and its value, or none where its bytes have a wrong form.
#[derive(Clone, Copy)]
pub struct FirstField {
    pub end: usize,
    pub value: Option<u32>,
}

// A value at the front of a line, and where it ends.
#[derive(Clone, Copy)]
pub struct FrontValue {
    pub end: usize,
    pub value: u32,
}

// The bytes of the longest value and the one after it.
pub const FRONT: usize = 7;

// An index before which no byte of s is b: blocks of 16 bytes without b are skipped.
fn pass_blocks(s: &[u8], b: u8) -> usize
    ensures { Passed b s.now result }
{
    let (blocks, _) = s.as_chunks::<16>();
    let first = blocks.iter().position(|block| block.contains(&b));
    16 * first.unwrap_or(blocks.len())
}

// The index of the first byte b of s, or the length of s where there is none.
pub fn find(s: &[u8], b: u8) -> usize
    ensures { result ≡ index_of b s.now }
{
    let i = pass_blocks(s, b);
    let rest = &s[i..];
    i + rest.iter().position(|x| *x == b).unwrap_or(rest.len())
}

// The index after the byte at e, or the end of n bytes.
pub fn skip(e: usize, n: usize) -> usize
    ensures { Skipped e n result }
{
    if e < n { e + 1 } else { n }
}

// How many bytes of a block are b: few enough that one byte counts them, so that many are counted at once.
fn count_block(s: &[u8], b: u8) -> u8
    requires { length s.now ≤ 128 }
    ensures { result ≡ count_of b s.now }
{
    let mut n: u8 = 0;
    for x in s {
        if *x == b {
            n += 1;
        }
    }
    n
}

// How many bytes of s are b.
fn count(s: &[u8], b: u8) -> usize
    ensures { result ≡ count_of b s.now }
{
    let (blocks, rest) = s.as_chunks::<128>();
    let whole: usize = blocks
        .iter()
        .map(|block| count_block(block, b) as usize)
        .sum();
    whole + count_block(rest, b) as usize
}

// The number of lines: whatever the last byte is, it ends one or is in one that has no end.
pub fn count_lines(s: &[u8]) -> usize
    ensures { result ≡ length (lines_of s.now) }
{
    let Some((_, before)) = s.split_last() else {
        return 0;
    };
    count(before, b'\n') + 1
}

// Whether two texts agree byte for byte.
pub fn same(s: &[u8], t: &[u8]) -> bool
    ensures { result ≡ same_text s.now t.now }
{
    s == t
}

// The number of at most six digits, or none where a byte is no digit.
fn number(s: &[u8]) -> Option<u32>
    requires { length s.now ≤ 6 }
    ensures { result ≡ digits_value s.now }
{
    let mut n: u32 = 0;
    for b in s {
        if !b.is_ascii_digit() {
            return None;
        }
        n = n * 10 + (*b - b'0') as u32;
    }
    Some(n)
}

// The value of a field, or none where its bytes have a wrong form.
pub fn value(s: &[u8]) -> Option<u32>
    ensures { result ≡ field_value s.now }
{
    let k = s.len();
    if k == 0 || 6 < k {
        return None;
    }
    if 1 < k && s[0] == b'0' {
        return None;
    }
    number(s)
}

// The value at the front of a line, read in one pass: digits that a comma or the line's end follows.
pub fn front_value(s: &[u8]) -> Option<FrontValue>
    ensures { IfSome result (λ v. IsFront s.now v) }
{
    let mut n: u32 = 0;
    for (i, b) in s.iter().enumerate() {
        let d = wrapping_sub_u32(*b as u32, b'0' as u32);
        if 9 < d {
            if i == 0 || *b != b',' {
                return None;
            }
            return Some(FrontValue { end: i, value: n });
        }
        if i == 6 || (i == 1 && s[0] == b'0') {
            return None;
        }
        n = n * 10 + d;
    }
    if s.is_empty() {
        return None;
    }
    Some(FrontValue {
        end: s.len(),
        value: n,
    })
}

// The first field of a line.
pub fn first_field(s: &[u8]) -> FirstField
    ensures { IsFirst s.now result }
{
    if let Some(v) = front_value(s) {
        return FirstField {
            end: v.end,
            value: Some(v.value),
        };
    }
    let end = find(s, b',');
    FirstField {
        end,
        value: value(&s[..end]),
    }
}
