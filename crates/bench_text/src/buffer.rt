// A program's buffer, filled from its input.
ghost use Rattle.std.specs.Prelude.{◌<◌, ◌≤◌, ℕ, length, take, IfOk, IfSome};
ghost use Rattle.std.specs.Io.KnownBytes.{Consumes};
ghost use Rattle.law.specs.Limit.{bytes as byteLimit};
ghost use Rattle.bench_text.specs.Buffer.{Buffered, ReadFrom};

use std::io;
use std::io::Read;

// Reads until the input ends or the buffer is full, and answers how many bytes came. The only error is a read's own. What the reader has given stands
// at the buffer's front, behind an error too.
pub fn read_full<R: Read>(reader: &mut R, buffer: &mut [u8]) -> io::Result<usize>
    requires room { byteLimit < length buffer.old }
    ensures buffered { IfOk result (λ n. Buffered n buffer.new) }
    ensures input { IfOk result (λ n. IfSome (R.remaining reader.old) (λ input. ReadFrom input n buffer.new)) }
    ensures given { (n : ℕ) × ((n ≤ length buffer.new)
        × Consumes (R.remaining reader.old) (R.remaining reader.new) (take n buffer.new)) }
{
    // Reads until the buffer is full or the input ends: no count by one, and std's own say little of what a failed read leaves.
    let mut at = 0usize;
    while at < buffer.len() {
        let n = reader.read(&mut buffer[at..])?;
        if n == 0 {
            return Ok(at);
        }
        at += n;
    }
    Ok(at)
}
