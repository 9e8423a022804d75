// The marked rows pinned, on the values of a block matrix in lent slices. What these require, the doors have tested.
ghost use Rattle.std.specs.Prelude.{◌≡◌, ◌<◌};
ghost use Rattle.matrix_pinned.specs.Marked.{pin_step, pinned_marked, Reach};

use crate::pinned;
use matrix_shape::pattern::Pattern;

// A row pinned if it is marked.
fn pin_marked(pattern: &Pattern, marks: &[u8], row: usize, blocks: &mut [f32])
    requires reach { Reach pattern.now.n pattern.now.row_offsets.now pattern.now.cols.now pattern.now.diagonal.now marks.now blocks.old }
    requires row_lt_n { row < pattern.now.n }
    ensures { blocks.new ≡ pin_step pattern.now.n pattern.now.row_offsets.now pattern.now.cols.now marks.now row blocks.old }
{
    if marks[row] != 0 {
        pinned::make_dirichlet(pattern, row, blocks);
    }
}

// The marked rows pinned, one after the other. A loop by row: the row's number is handed on.
pub fn make_dirichlet_marked(pattern: &Pattern, marks: &[u8], blocks: &mut [f32])
    requires { Reach pattern.now.n pattern.now.row_offsets.now pattern.now.cols.now pattern.now.diagonal.now marks.now blocks.old }
    ensures { blocks.new ≡ pinned_marked pattern.now.n pattern.now.row_offsets.now pattern.now.cols.now marks.now blocks.old }
{
    for row in 0..pattern.n {
        pin_marked(pattern, marks, row, blocks);
    }
}
