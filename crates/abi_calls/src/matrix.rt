// The block matrix's calls. Each answers the refusal's number, or 0; the lists are left as the call's own promise says.
// Numbers, lists and lent places stand one by one, and the answer is a byte: it is the C interface.
ghost use Rattle.std.specs.Prelude.{◌≡◌};
ghost use Rattle.law.specs.Promise.{outcome};
ghost use Rattle.matrix_doors.specs.Indexing as indexing;
ghost use Rattle.matrix_doors.specs.Clearing as clearing;
ghost use Rattle.matrix_doors.specs.Multiplying as multiplying;
ghost use Rattle.matrix_doors.specs.Pinning as pinning;
ghost use Rattle.matrix_doors.specs.PinningMarked as pinningmarked;
ghost use Rattle.matrix_building.specs.Building as building;
ghost use Rattle.matrix_building.specs.FromPairs as frompairs;
ghost use Rattle.matrix_shape.specs.Shape.{shape};
ghost use Rattle.abi_answers.specs.Numbers.{answered, found_slot, Numbered};

use abi_answers::number;
use matrix_shape::pattern::Pattern;

#[unsafe(no_mangle)]
pub extern "C" fn bracket_from_pairs(
    n: usize,
    count: usize,
    pairs: &[u32],
    row_offsets: &mut [u32],
    cols: &mut [u32],
    diagonal: &mut [u32],
    blocks: &mut [f32],
    work: &mut [u32],
) -> u8
    ensures { Numbered frompairs.door (λ o. o.pattern.answer) answered
        (frompairs.given (building.given n count pairs.now row_offsets.old cols.old diagonal.old
        work.old) blocks.old)
        result
        (λ a. frompairs.left (building.left a row_offsets.new cols.new diagonal.new work.new)
        blocks.new) }
{
    number(&matrix_doors::from_pairs(n, count, pairs, row_offsets, cols, diagonal, blocks, work))
}

#[unsafe(no_mangle)]
pub extern "C" fn bracket_pattern_from_pairs(
    n: usize,
    count: usize,
    pairs: &[u32],
    row_offsets: &mut [u32],
    cols: &mut [u32],
    diagonal: &mut [u32],
    work: &mut [u32],
) -> u8
    ensures { Numbered building.door (λ o. o.answer) answered
        (building.given n count pairs.now row_offsets.old cols.old diagonal.old work.old)
        result
        (λ a. building.left a row_offsets.new cols.new diagonal.new work.new) }
{
    number(&matrix_doors::pattern_from_pairs(n, count, pairs, row_offsets, cols, diagonal, work))
}

#[unsafe(no_mangle)]
pub extern "C" fn bracket_block_index(
    n: usize,
    row_offsets: &[u32],
    cols: &[u32],
    diagonal: &[u32],
    row: usize,
    col: u32,
    slot: &mut u32,
) -> u8
    ensures { (result ≡ answered (outcome (indexing.block_door col) (indexing.given (shape n row_offsets.now cols.now diagonal.now)
        row)).answer)
        ×
        (slot.new ≡ found_slot (outcome (indexing.block_door col) (indexing.given (shape n row_offsets.now cols.now
        diagonal.now) row)).answer slot.old) }
{
    let pattern = Pattern {
        n,
        row_offsets,
        cols,
        diagonal,
    };
    let found = matrix_doors::block_index(&pattern, row, col);
    *slot = found.unwrap_or(*slot);
    number(&found)
}

#[unsafe(no_mangle)]
pub extern "C" fn bracket_diagonal_index(
    n: usize,
    row_offsets: &[u32],
    cols: &[u32],
    diagonal: &[u32],
    row: usize,
    slot: &mut u32,
) -> u8
    ensures { (result ≡ answered (outcome indexing.diagonal_door (indexing.given (shape n row_offsets.now cols.now diagonal.now)
        row)).answer)
        ×
        (slot.new ≡ found_slot (outcome indexing.diagonal_door (indexing.given (shape n row_offsets.now cols.now
        diagonal.now) row)).answer slot.old) }
{
    let pattern = Pattern {
        n,
        row_offsets,
        cols,
        diagonal,
    };
    let found = matrix_doors::diagonal_index(&pattern, row);
    *slot = found.unwrap_or(*slot);
    number(&found)
}

#[unsafe(no_mangle)]
pub extern "C" fn bracket_clear_values(
    n: usize,
    row_offsets: &[u32],
    cols: &[u32],
    diagonal: &[u32],
    blocks: &mut [f32],
) -> u8
    ensures { Numbered clearing.door (λ o. o.answer) answered
        (clearing.given (shape n row_offsets.now cols.now diagonal.now) blocks.old)
        result (λ a. clearing.left a blocks.new) }
{
    let pattern = Pattern {
        n,
        row_offsets,
        cols,
        diagonal,
    };
    number(&matrix_doors::clear_values(&pattern, blocks))
}

#[unsafe(no_mangle)]
pub extern "C" fn bracket_mul(
    n: usize,
    row_offsets: &[u32],
    cols: &[u32],
    diagonal: &[u32],
    blocks: &[f32],
    x: &[f32],
    out: &mut [f32],
) -> u8
    ensures { Numbered multiplying.door (λ o. o.answer) answered
        (multiplying.given (shape n row_offsets.now cols.now diagonal.now) blocks.now x.now
        out.old)
        result (λ a. multiplying.left a out.new) }
{
    let pattern = Pattern {
        n,
        row_offsets,
        cols,
        diagonal,
    };
    number(&matrix_doors::mul(&pattern, blocks, x, out))
}

#[unsafe(no_mangle)]
pub extern "C" fn bracket_make_dirichlet(
    n: usize,
    row_offsets: &[u32],
    cols: &[u32],
    diagonal: &[u32],
    row: usize,
    blocks: &mut [f32],
) -> u8
    ensures { Numbered pinning.door (λ o. o.answer) answered
        (pinning.given (shape n row_offsets.now cols.now diagonal.now) row blocks.old)
        result (λ a. pinning.left a blocks.new) }
{
    let pattern = Pattern {
        n,
        row_offsets,
        cols,
        diagonal,
    };
    number(&matrix_doors::make_dirichlet(&pattern, row, blocks))
}

#[unsafe(no_mangle)]
pub extern "C" fn bracket_make_dirichlet_marked(
    n: usize,
    row_offsets: &[u32],
    cols: &[u32],
    diagonal: &[u32],
    marks: &[u8],
    blocks: &mut [f32],
) -> u8
    ensures { Numbered pinningmarked.door (λ o. o.answer) answered
        (pinningmarked.given (shape n row_offsets.now cols.now diagonal.now) marks.now blocks.old)
        result (λ a. pinningmarked.left a blocks.new) }
{
    let pattern = Pattern {
        n,
        row_offsets,
        cols,
        diagonal,
    };
    number(&matrix_doors::make_dirichlet_marked(&pattern, marks, blocks))
}
