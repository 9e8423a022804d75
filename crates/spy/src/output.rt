// To a writer, a line at a time.
ghost use Rattle.std.specs.Prelude.{◌≤◌, length};
ghost use Rattle.law.specs.Limit.{particles};
ghost use Rattle.bench_picture.specs.Drawing.{scene_of};
ghost use Rattle.bench_picture.specs.Ready.{Ready, line_room};

use bench_picture::drawing::Drawing;
use law::refusal::Refusal;
use std::io;
use std::io::Write;

// The line of a refusal.
pub fn refuse<W: Write>(refusal: Refusal, line: &mut [u8], writer: &mut W) -> io::Result<()>
    requires { line_room particles ≤ length line.old }
{
    let k = bench_print::inner::write_refused(u8::from(refusal), line);
    writer.write_all(&line[..k])
}

// The picture's first two lines.
fn header<W: Write>(n: usize, line: &mut [u8], writer: &mut W) -> io::Result<()>
    requires { (n ≤ particles) × (line_room particles ≤ length line.old) }
{
    let k = bench_picture::inner::write_header(n, line);
    writer.write_all(&line[..k])
}

// The whole picture. One line at a time is in the buffer.
pub fn draw<W: Write>(drawing: &Drawing, line: &mut [u8], writer: &mut W) -> io::Result<()>
    requires { Ready (scene_of drawing.now) × (line_room particles ≤ length line.old) }
{
    header(drawing.n, line, writer)?;
    for i in 0..2 * drawing.n {
        let k = bench_picture::inner::write_line(drawing, i, line);
        writer.write_all(&line[..k])?;
    }
    Ok(())
}
