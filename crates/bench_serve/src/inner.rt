// What the bench programs do: a reader's text in, the answer out.
ghost use Rattle.std.specs.Prelude.{◌≤◌, ℕ, List, length, OnOk, IfSome};
ghost use Rattle.std.specs.Io.KnownBytes.{Appends, Consumes};
ghost use Rattle.law.specs.Limit.{particles};
ghost use Rattle.bench_text.specs.Buffer.{Buffered};
ghost use Rattle.bench_print.specs.Lines.{lines_room};
ghost use Rattle.bench_answer.specs.Answer.{answer_of};
ghost use Rattle.bench_serve.specs.Reply.{Replies};

use std::io;
use std::io::{Read, Write};

// Room for any answer: a line of 1,024 numbers and one for the envelope, ten digits to a number.
const ROOM: usize = 11290;

// The whole output for the n bytes that were read into the buffer, whose room for more bytes than a text may have shows that there are more.
fn reply(n: usize, buffer: &[u8], out: &mut [u8]) -> usize
    requires { Buffered n buffer.now × (lines_room particles ≤ length out.old) }
    ensures { Replies n buffer.now out.old out.new result }
{
    match bench_desk::answer(&buffer[..n], out) {
        Ok(k) => k,
        Err(refusal) => bench_print::inner::write_refused(u8::from(refusal), out),
    }
}

// Where no read and no write fails, what is written is the answer to all that the reader has. Behind an error too the reader has given its bytes in
// order; of a writer whose write failed the library says nothing.
pub fn serve<R: Read, W: Write>(reader: &mut R, writer: &mut W) -> io::Result<()>
    ensures written { OnOk result
        (IfSome (R.remaining reader.old) (λ input. Appends (W.contents writer.old) (W.contents writer.new) (answer_of input))) }
    ensures read { (bs : List ℕ) × Consumes (R.remaining reader.old) (R.remaining reader.new) bs }
{
    let mut buffer = [0u8; law::BYTES + 1];
    let n = bench_text::buffer::read_full(reader, &mut buffer)?;
    let mut out = [0u8; ROOM];
    let k = reply(n, &buffer, &mut out);
    writer.write_all(&out[..k])
}
