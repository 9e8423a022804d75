// Block matrices over lent slices, soft_fem_sparse.rs's BlockMatrix. THE DOORS: each tests all that it is handed, and
// refuses or does the work. A pattern's last row offset is the block count. Values are four floats to a block, vectors
// two floats to a particle.
// Lists lent by `&mut` stay parameters: in a struct each clause would have to say that every field keeps its reference.
#![tactic(auto)]

ghost use Rattle.law.specs.Promise.{Promise};
ghost use Rattle.matrix_shape.specs.Shape.{lists};
ghost use Rattle.matrix_building.specs.Building as building;
ghost use Rattle.matrix_building.specs.FromPairs as frompairs;
ghost use Rattle.matrix_doors.specs.Indexing as indexing;
ghost use Rattle.matrix_doors.specs.Clearing as clearing;
ghost use Rattle.matrix_doors.specs.Multiplying as multiplying;
ghost use Rattle.matrix_doors.specs.Pinning as pinning;
ghost use Rattle.matrix_doors.specs.PinningMarked as pinningmarked;

use law::refusal::Refusal;
use matrix_shape::pattern::Pattern;

pub mod refuse;

// The pattern of the diagonal blocks and the pairs, in either order, with values that start zero; the answer is the block count.
#[tactic(auto, unfolding(law::specs::Promise::outcome))]
pub fn from_pairs(
    n: usize,
    count: usize,
    pairs: &[u32],
    row_offsets: &mut [u32],
    cols: &mut [u32],
    diagonal: &mut [u32],
    blocks: &mut [f32],
    work: &mut [u32],
) -> Result<usize, Refusal>
    ensures { Promise frompairs.door
        (frompairs.given (building.given n count pairs.now row_offsets.old cols.old diagonal.old
        work.old) blocks.old)
        (frompairs.left (building.left result row_offsets.new cols.new diagonal.new work.new)
        blocks.new) }
{
    matrix_building::refuse::from_pairs(
        n,
        count,
        pairs,
        row_offsets,
        cols,
        diagonal,
        blocks,
        work,
    )?;
    Ok(matrix_building::inner::build_with_values(
        n,
        count,
        pairs,
        row_offsets,
        cols,
        diagonal,
        blocks,
        work,
    ))
}

// The same without values.
#[tactic(auto, unfolding(law::specs::Promise::outcome))]
pub fn pattern_from_pairs(
    n: usize,
    count: usize,
    pairs: &[u32],
    row_offsets: &mut [u32],
    cols: &mut [u32],
    diagonal: &mut [u32],
    work: &mut [u32],
) -> Result<usize, Refusal>
    ensures { Promise building.door
        (building.given n count pairs.now row_offsets.old cols.old diagonal.old work.old)
        (building.left result row_offsets.new cols.new diagonal.new work.new) }
{
    matrix_building::refuse::building(n, count, pairs, row_offsets, cols, diagonal, work)?;
    Ok(matrix_building::inner::build(n, count, pairs, row_offsets, cols, diagonal, work))
}

// The slot of block (row, col), or 4294967295 where it is not stored.
#[tactic(auto, unfolding(law::specs::Promise::outcome))]
pub fn block_index(pattern: &Pattern, row: usize, col: u32) -> Result<u32, Refusal>
    ensures { Promise (indexing.block_door col)
        (indexing.given (lists pattern.now) row)
        (indexing.left result) }
{
    refuse::row(pattern, row)?;
    Ok(matrix_shape::index::block_index(pattern.row_offsets, pattern.cols, row, col))
}

// The slot of a row's diagonal block.
#[tactic(auto, unfolding(law::specs::Promise::outcome))]
pub fn diagonal_index(pattern: &Pattern, row: usize) -> Result<u32, Refusal>
    ensures { Promise indexing.diagonal_door
        (indexing.given (lists pattern.now) row)
        (indexing.left result) }
{
    refuse::row(pattern, row)?;
    Ok(pattern.diagonal[row])
}

// Zeros in every block.
#[tactic(auto, unfolding(law::specs::Promise::outcome))]
pub fn clear_values(pattern: &Pattern, blocks: &mut [f32]) -> Result<(), Refusal>
    ensures { Promise clearing.door
        (clearing.given (lists pattern.now) blocks.old)
        (clearing.left result blocks.new) }
{
    refuse::clearing(pattern, blocks)?;
    matrix_values::inner::clear_values(pattern.slots(), blocks);
    Ok(())
}

// out is the matrix times x.
#[tactic(auto, unfolding(law::specs::Promise::outcome))]
pub fn mul(pattern: &Pattern, blocks: &[f32], x: &[f32], out: &mut [f32]) -> Result<(), Refusal>
    ensures { Promise multiplying.door
        (multiplying.given (lists pattern.now) blocks.now x.now out.old)
        (multiplying.left result out.new) }
{
    refuse::multiplying(pattern, blocks, x, out)?;
    matrix_values::inner::mul(pattern, blocks, x, out);
    Ok(())
}

// A pinned row: identity on its diagonal, zero in the rest of the row and in its mirrors.
#[tactic(auto, unfolding(law::specs::Promise::outcome))]
pub fn make_dirichlet(pattern: &Pattern, row: usize, blocks: &mut [f32]) -> Result<(), Refusal>
    ensures { Promise pinning.door
        (pinning.given (lists pattern.now) row blocks.old)
        (pinning.left result blocks.new) }
{
    refuse::pinning(pattern, row, blocks)?;
    matrix_pinned::pinned::make_dirichlet(pattern, row, blocks);
    Ok(())
}

// Every marked row pinned, as one after the other. A mark is a byte, and zero means free.
#[tactic(auto, unfolding(law::specs::Promise::outcome))]
pub fn make_dirichlet_marked(
    pattern: &Pattern,
    marks: &[u8],
    blocks: &mut [f32],
) -> Result<(), Refusal>
    ensures { Promise pinningmarked.door
        (pinningmarked.given (lists pattern.now) marks.now blocks.old)
        (pinningmarked.left result blocks.new) }
{
    refuse::pinning_marked(pattern, marks, blocks)?;
    matrix_pinned::marked::make_dirichlet_marked(pattern, marks, blocks);
    Ok(())
}
