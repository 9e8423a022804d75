// A file's lines, put together from the chunks that are read.
ghost use Rattle.std.specs.Prelude.{◌≤◌, length, IfOk};

use crate::answer::answer;
use replay_tokens::print::{Room, unknown};
use std::io;
use std::io::Read;

// Answers the line of n bytes. One that fills its buffer may have lost its end, so it is taken for none.
fn respond(line: &[u8], n: usize, words: &mut [u32], out: &mut Room)
    requires { n ≤ length line.now }
{
    if n == line.len() {
        unknown(out);
        return;
    }
    answer(&line[0..n], words, out);
}

// One byte more after the n bytes of a line.
fn step(b: u8, line: &mut [u8], n: usize, words: &mut [u32], out: &mut Room) -> usize
    requires { n ≤ length line.old }
    ensures { result ≤ length line.old }
{
    if b == b'\n' {
        respond(line, n, words, out);
        return 0;
    }
    if n == line.len() {
        return n;
    }
    line[n] = b;
    n + 1
}

fn steps(chunk: &[u8], line: &mut [u8], n: usize, words: &mut [u32], out: &mut Room) -> usize
    requires { n ≤ length line.old }
    ensures { result ≤ length line.old }
{
    let mut at = n;
    for b in chunk {
        at = step(*b, line, at, words, out);
    }
    at
}

// Every line that ends in the file; the length of what stands after the last of them. Nothing says that a file ends, so the
// turns are counted down from a number that no run uses up.
fn ended<R: Read>(
    file: &mut R,
    chunk: &mut [u8],
    line: &mut [u8],
    words: &mut [u32],
    out: &mut Room,
) -> io::Result<usize>
    ensures { IfOk result (λ n. n ≤ length line.old) }
{
    let mut turns = u64::MAX;
    let mut n = 0usize;
    while turns > 0 {
        let k = file.read(chunk)?;
        if k == 0 {
            return Ok(n);
        }
        let next = steps(&chunk[0..k], line, n, words, out);
        n = next;
        turns -= 1;
    }
    Ok(n)
}

pub fn replay<R: Read>(
    file: &mut R,
    chunk: &mut [u8],
    line: &mut [u8],
    words: &mut [u32],
    out: &mut Room,
) -> io::Result<()> {
    let n = ended(file, chunk, line, words, out)?;
    if n > 0 {
        respond(line, n, words, out);
    }
    Ok(())
}
