// Each writes at the buffer's front and answers how many bytes it wrote.
// The loop over a line goes by the pixel's number, since the number says whether it is black.
ghost use Rattle.std.specs.Prelude.{◌≡◌, ◌*◌, ◌≤◌, ◌<◌, length};
ghost use Rattle.law.specs.Limit.{particles};
ghost use Rattle.law.specs.Put.{Written};
ghost use Rattle.law.specs.Store.{written};
ghost use Rattle.law.specs.Gather.{table};
ghost use Rattle.bench_picture.specs.Pixels.{pixel, width, digit, row_of, header_of};
ghost use Rattle.bench_picture.specs.Drawing.{scene_of};
ghost use Rattle.bench_picture.specs.Ready.{Ready, line_room, header_room};

use crate::drawing::Drawing;
use bench_print::inner::{put_bytes, put_number};

// The format's name, the picture's width and its height.
pub fn write_header(n: usize, out: &mut [u8]) -> usize
    requires { (n ≤ particles) × (header_room ≤ length out.old) }
    ensures { Written (header_of n) out.old out.new result }
{
    let a = put_bytes(0, b"P1\n", out);
    let b = put_number((4 * n + 1) as u32, a, out);
    let c = put_bytes(b, b" ", out);
    let d = put_number((2 * n) as u32, c, out);
    put_bytes(d, b"\n", out)
}

// The digits of line i. Answers how many.
fn put_pixels(drawing: &Drawing, i: usize, out: &mut [u8]) -> usize
    requires { Ready (scene_of drawing.now) × ((i < 2 * drawing.now.n) × (line_room drawing.now.n ≤ length out.old)) }
    ensures { (result ≡ width drawing.now.n) ×
        (out.new ≡ written out.old 0
        (table (λ k. digit (pixel (scene_of drawing.now) i k))
        (width drawing.now.n))) }
{
    let wide = 4 * drawing.n + 1;
    for k in 0..wide {
        let black = crate::pixels::pixel(drawing, i, k);
        out[k] = crate::pixels::digit(black);
    }
    wide
}

// Line i, with its end.
pub fn write_line(drawing: &Drawing, i: usize, out: &mut [u8]) -> usize
    requires { Ready (scene_of drawing.now) × ((i < 2 * drawing.now.n) × (line_room drawing.now.n ≤ length out.old)) }
    ensures { Written
        (row_of (scene_of drawing.now) i)
        out.old out.new result }
{
    let at = put_pixels(drawing, i, out);
    put_bytes(at, b"\n", out)
}
