// Whether a pixel is black.
ghost use Rattle.std.specs.Prelude.{◌≡◌, ◌*◌, ◌<◌};
ghost use Rattle.matrix_shape.specs.Formed.{stored};
ghost use Rattle.matrix_shape.specs.Index.{Line};
ghost use Rattle.matrix_shape.specs.Rows.{at};
ghost use Rattle.bench_picture.specs.Pixels.{hatched, after, pixel, width, digit};
ghost use Rattle.bench_picture.specs.Drawing.{scene_of};
ghost use Rattle.bench_picture.specs.Ready.{Ready};

use crate::drawing::Drawing;

// Whether row `row` stores the column.
fn has(row_offsets: &[u32], cols: &[u32], row: usize, col: u32) -> bool
    requires { Line row_offsets.now cols.now row }
    ensures { result ≡ stored (at row_offsets.now) (at cols.now) row col }
{
    let a = law::wide(row_offsets[row]);
    let b = law::wide(row_offsets[row + 1]);
    matrix_shape::index::slot_of(cols, a, b, col) != law::ABSENT
}

// Whether row i, which starts at column `first` in the envelope, is hatched at column j.
fn hatch(first: usize, i: usize, j: usize) -> bool
    requires { (i < 4096) × (j < 4096) }
    ensures { result ≡ hatched first i j }
{
    (j <= i) & (first <= j) & ((i + j) % 2 == 0)
}

// A pixel of the right panel.
fn ordered(drawing: &Drawing, i: usize, j: usize) -> bool
    requires { Ready (scene_of drawing.now) × ((i < 2 * drawing.now.n) × (j < 2 * drawing.now.n)) }
    ensures { result ≡ after (scene_of drawing.now) i j }
{
    let row = law::wide(drawing.order[i / 2]);
    let stands = has(drawing.row_offsets, drawing.cols, row, drawing.order[j / 2]);
    stands | hatch(law::wide(drawing.first[i]), i, j)
}

// The pixel at column k of line i.
pub fn pixel(drawing: &Drawing, i: usize, k: usize) -> bool
    requires { Ready (scene_of drawing.now) × ((i < 2 * drawing.now.n) × (k < width drawing.now.n)) }
    ensures { result ≡ pixel (scene_of drawing.now) i k }
{
    let side = 2 * drawing.n;
    if k < side {
        return has(drawing.row_offsets, drawing.cols, i / 2, (k / 2) as u32);
    }
    if k == side {
        return false;
    }
    ordered(drawing, i, k - (side + 1))
}

// A black pixel is a 1.
pub fn digit(black: bool) -> u8
    ensures { result ≡ digit black }
{
    if black {
        return b'1';
    }
    b'0'
}
