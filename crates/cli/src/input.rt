// Standard input, read to its end.
ghost use Rattle.cli.specs.Counts.{IsPrefixLen};

use std::io::{self, Read};

// One read, at the start of buf: how many bytes it put there, and none at the end of the input or where it fails.
fn read_some(input: &mut impl Read, buf: &mut [u8]) -> usize
    ensures { IsPrefixLen result buf.new }
{
    input.read(buf).unwrap_or(0)
}

// Reads until buf is full or the input ends, and answers how many bytes are at the start of buf.
fn fill(input: &mut impl Read, buf: &mut [u8]) -> usize
    ensures { IsPrefixLen result buf.new }
{
    let mut done: usize = 0;
    while done < buf.len() {
        let n = read_some(input, &mut buf[done..]);
        if n == 0 {
            break;
        }
        done += n;
    }
    done
}

// Reads all of standard input, keeps as much as fits in buf, and answers how many bytes it kept.
pub fn read(rt: &impl Input, buf: &mut [u8]) -> usize
    ensures { IsPrefixLen result buf.new }
{
    let mut input = rt.reader();
    let n = fill(&mut input, buf);
    // The rest is read too, so that the writer is not cut off.
    let _ = io::copy(&mut input, &mut io::sink());
    n
}
