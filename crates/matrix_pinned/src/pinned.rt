// A row pinned, on the values of a block matrix in lent slices. What these require, the doors have tested.
ghost use Rattle.std.specs.Prelude.{◌≡◌, ◌*◌, ◌≤◌, ◌<◌, length};
ghost use Rattle.law.specs.Mix.{mix};
ghost use Rattle.matrix_shape.specs.Rows.{at};
ghost use Rattle.matrix_shape.specs.Index.{index_of};
ghost use Rattle.matrix_shape.specs.Shape.{lists, IsPattern};
ghost use Rattle.matrix_pinned.specs.Dirichlet.{pinned};
ghost use Rattle.matrix_pinned.specs.Mirrors.{crossed, Facing, Cross};

use matrix_shape::pattern::Pattern;

// The slot of row c that has the column `row`: behind c's diagonal where c is less, and else up to it, so that half a row is searched.
fn mirror(pattern: &Pattern, c: usize, row: u32) -> u32
    requires { Facing pattern.now.row_offsets.now pattern.now.cols.now pattern.now.diagonal.now c row }
    ensures { result ≡ index_of (at pattern.now.row_offsets.now) (at pattern.now.cols.now) c row }
{
    let end = law::wide(pattern.row_offsets[c + 1]);
    let behind = law::wide(pattern.diagonal[c]) + 1;
    if c < law::wide(row) {
        return matrix_shape::index::slot_of(pattern.cols, behind, end, row);
    }
    let start = law::wide(pattern.row_offsets[c]);
    matrix_shape::index::slot_of(pattern.cols, start, behind, row)
}

// Slot k of a row and its mirror, the row's slot in the row that the slot's column names, set to zero. On the diagonal the two are one.
fn clear_cross(pattern: &Pattern, row: u32, k: usize, blocks: &mut [f32])
    requires { Cross pattern.now.row_offsets.now pattern.now.cols.now pattern.now.diagonal.now row k blocks.old }
    ensures { blocks.new ≡ crossed pattern.now.row_offsets.now pattern.now.cols.now row k blocks.old }
{
    let c = law::wide(pattern.cols[k]);
    let other = law::wide(mirror(pattern, c, row));
    vectors::inner::set_block(blocks, k, [[0.0, 0.0], [0.0, 0.0]]);
    vectors::inner::set_block(blocks, other, [[0.0, 0.0], [0.0, 0.0]]);
}

// A row pinned: identity on its diagonal, zero in the rest of the row and in its mirrors. A loop by k: k is handed on.
pub fn make_dirichlet(pattern: &Pattern, row: usize, blocks: &mut [f32])
    requires pattern { IsPattern (lists pattern.now) }
    requires row_lt_n { row < pattern.now.n }
    requires n_in_bounds { 4 * at pattern.now.row_offsets.now pattern.now.n ≤ length blocks.old }
    ensures { blocks.new ≡ mix 4 (at pattern.now.row_offsets.now pattern.now.n)
        (pinned pattern.now.row_offsets.now pattern.now.cols.now row blocks.old)
        blocks.old }
{
    let start = law::wide(pattern.row_offsets[row]);
    let end = law::wide(pattern.row_offsets[row + 1]);
    let col = row as u32;
    for k in start..end {
        clear_cross(pattern, col, k, blocks);
    }
    let slot = law::wide(pattern.diagonal[row]);
    vectors::inner::set_block(blocks, slot, [[1.0, 0.0], [0.0, 1.0]]);
}
