// The work behind the two building calls, on input that is known to be good.
// Lists lent by `&mut` stay parameters: in a struct each clause would have to say that every field keeps its reference.
ghost use Rattle.std.specs.Prelude.{◌≡◌};
ghost use Rattle.matrix_building.specs.Building as building;
ghost use Rattle.matrix_building.specs.FromPairs as frompairs;

// A pattern, on the parts of the lent lists that building needs.
pub fn build(
    n: usize,
    count: usize,
    pairs: &[u32],
    row_offsets: &mut [u32],
    cols: &mut [u32],
    diagonal: &mut [u32],
    work: &mut [u32],
) -> usize
    requires { building.Ready (building.given n count pairs.now row_offsets.old cols.old diagonal.old work.old) }
    ensures { building.left (Ok result) row_offsets.new cols.new diagonal.new work.new ≡ building.work
        (building.given n count pairs.now row_offsets.old cols.old diagonal.old work.old) }
{
    let k = 2 * count;
    let a = n + 1;
    let b = n + k;
    matrix_build::inner::build(
        n,
        count,
        pairs,
        &mut row_offsets[..a],
        &mut cols[..b],
        &mut diagonal[..n],
        &mut work[..k],
    )
}

pub fn build_with_values(
    n: usize,
    count: usize,
    pairs: &[u32],
    row_offsets: &mut [u32],
    cols: &mut [u32],
    diagonal: &mut [u32],
    blocks: &mut [f32],
    work: &mut [u32],
) -> usize
    requires { frompairs.Ready
        (frompairs.given (building.given n count pairs.now row_offsets.old cols.old diagonal.old work.old) blocks.old) }
    ensures { frompairs.left
        (building.left (Ok result) row_offsets.new cols.new diagonal.new work.new)
        blocks.new ≡ frompairs.work
        (frompairs.given (building.given n count pairs.now row_offsets.old cols.old diagonal.old
        work.old) blocks.old) }
{
    matrix_values::inner::clear_values(n + 2 * count, blocks);
    build(n, count, pairs, row_offsets, cols, diagonal, work)
}
