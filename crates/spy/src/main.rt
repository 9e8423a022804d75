// The picture program: a text as the bench program reads it, from standard input; the pattern before and after ordering, as a portable bitmap, to standard
// output. The lists that are written stay parameters: of a struct of them each clause would have to say that its fields keep their references.
#![tactic(auto)]

ghost use Rattle.std.specs.Prelude.{◌≡◌, ◌*◌, ◌≤◌, length};
ghost use Rattle.law.specs.Limit.{particles};
ghost use Rattle.bench_text.specs.Buffer.{Buffered};
ghost use Rattle.bench_plan.specs.Built.{Sheet};
ghost use Rattle.bench_plan.specs.Read.{numbers_room};
ghost use Rattle.bench_picture.specs.Ready.{line_room};

use bench_picture::drawing::Drawing;
use std::io;
use std::io::{Read, Write};

mod output;

// By what the text came to.
fn reply_in<W: Write>(
    read: usize,
    buffer: &[u8],
    numbers: &mut [u32],
    row_offsets: &mut [u32],
    cols: &mut [u32],
    diagonal: &mut [u32],
    work: &mut [u32],
    order: &mut [u32],
    first: &mut [u32],
    line: &mut [u8],
    writer: &mut W,
) -> io::Result<()>
    requires { Buffered read buffer.now ×
        ((length numbers.old ≡ numbers_room) ×
        (Sheet row_offsets.old cols.old diagonal.old work.old order.old
        × ((2 * particles ≤ length first.old) × (line_room particles ≤ length line.old)))) }
{
    let came = bench_sketch::inner::sketch(
        read,
        buffer,
        numbers,
        row_offsets,
        cols,
        diagonal,
        work,
        order,
        first,
    );
    match came {
        Err(refusal) => output::refuse(refusal, line, writer),
        Ok(n) => {
            let starts = n + 1;
            let blocks = law::wide(row_offsets[n]);
            let rows = 2 * n;
            let drawing = Drawing {
                n,
                row_offsets: &row_offsets[..starts],
                cols: &cols[..blocks],
                order: &order[..n],
                first: &first[..rows],
            };
            output::draw(&drawing, line, writer)
        }
    }
}

// The lists are here, each as long as the limits ask, and nothing else: arrays, since the project uses no heap.
// The buffer has room for more bytes than a text may have, which shows that there are more.
fn reply<W: Write>(read: usize, buffer: &[u8], writer: &mut W) -> io::Result<()>
    requires { Buffered read buffer.now }
{
    let mut numbers = [0u32; 8192];
    let mut row_offsets = [0u32; 1025];
    let mut cols = [0u32; 9216];
    let mut diagonal = [0u32; 1024];
    let mut work = [0u32; 8192];
    let mut order = [0u32; 1024];
    let mut first = [0u32; 2048];
    let mut line = [0u8; 4098];
    reply_in(
        read,
        buffer,
        &mut numbers,
        &mut row_offsets,
        &mut cols,
        &mut diagonal,
        &mut work,
        &mut order,
        &mut first,
        &mut line,
        writer,
    )
}

fn spy<R: Read, W: Write>(reader: &mut R, writer: &mut W) -> io::Result<()> {
    let mut buffer = [0u8; law::BYTES + 1];
    let read = bench_text::buffer::read_full(reader, &mut buffer)?;
    reply(read, &buffer, writer)
}

fn main(rt: HostRuntime) -> io::Result<()> {
    spy(&mut rt.stdin(), &mut rt.stdout())
}
