// The values of a block matrix, four floats to a block, in lent slices. What these require, the doors have tested.
ghost use Rattle.std.specs.Prelude.{◌≡◌, ◌+◌, ◌*◌, ◌≤◌, ◌<◌, length};
ghost use Rattle.law.specs.Mix.{mix};
ghost use Rattle.plane.specs.Lent.{flat};
ghost use Rattle.matrix_shape.specs.Rows.{at, Rows};
ghost use Rattle.matrix_values.specs.Product.{slot_step, row_sum, product_at, RowReach};
ghost use Rattle.matrix_values.specs.Blocks.{zero_block};

use matrix_shape::pattern::Pattern;
use plane::Vector;

// A row's sum and one slot more: its block times the vector's part that its column names.
fn add_slot(cols: &[u32], blocks: &[f32], x: &[f32], k: usize, sum: Vector) -> Vector
    requires { (k < length cols.now) × (4 * k + 3 < length blocks.now) × (2 * at cols.now k + 1 < length x.now) }
    ensures { result ≡ slot_step cols.now blocks.now x.now k sum }
{
    let c = law::wide(cols[k]);
    plane::add(
        sum,
        plane::times(
            vectors::inner::block_at(blocks, k),
            vectors::inner::vector_at(x, c),
        ),
    )
}

// The sum over the slots a..b, from (+0.0, +0.0). A loop by k: each slot is a place of two lists, and a fold's closure would need both clauses again.
fn row_sum(cols: &[u32], blocks: &[f32], x: &[f32], a: usize, b: usize) -> Vector
    requires a_le_b { a ≤ b }
    requires row_reach { RowReach cols.now blocks.now x.now a b }
    ensures { result ≡ row_sum cols.now blocks.now x.now a b }
{
    let mut sum = [0.0, 0.0];
    for k in a..b {
        let next = add_slot(cols, blocks, x, k, sum);
        sum = next;
    }
    sum
}

// The matrix times x. A row ends where the next one starts. A loop by r: `out` is written two places at a time. Never inlined: within the gradient's turn
// the jumps of its two loops could come to lie so close that none told the end of a row from its middle, and rows of three slots took twice as long.
#[inline(never)]
pub fn mul(pattern: &Pattern, blocks: &[f32], x: &[f32], out: &mut [f32])
    requires rows { Rows pattern.now.n pattern.now.row_offsets.now pattern.now.cols.now }
    requires n_in_bounds { (4 * at pattern.now.row_offsets.now pattern.now.n ≤ length blocks.now) × (2 * pattern.now.n ≤ length x.now) × (2 * pattern.now.n ≤ length out.old) }
    ensures { out.new ≡ mix 2 pattern.now.n
        (product_at pattern.now.row_offsets.now pattern.now.cols.now blocks.now x.now)
        out.old }
{
    let row_offsets = pattern.row_offsets;
    let cols = pattern.cols;
    let mut start = law::wide(row_offsets[0]);
    for r in 0..pattern.n {
        let end = law::wide(row_offsets[r + 1]);
        vectors::inner::set_vector(out, r, row_sum(cols, blocks, x, start, end));
        start = end;
    }
}

// The first m blocks, set to zero.
pub fn clear_values(m: usize, blocks: &mut [f32])
    requires { 4 * m ≤ length blocks.old }
    ensures { blocks.new ≡ mix 4 m (λ k. flat zero_block) blocks.old }
{
    blocks[..4 * m].fill(0.0);
}
