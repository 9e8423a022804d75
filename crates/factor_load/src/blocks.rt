// The matrix's blocks into the envelope, a block to two rows.
ghost use Rattle.std.specs.Prelude.{◌≡◌, ℕ, ◌*◌, ◌≤◌, ◌<◌, length};
ghost use Rattle.matrix_shape.specs.Rows.{at};
ghost use Rattle.factor_load.specs.Load.{beside_of, corner_of, slot_into, slots_into, row_into, Spot, Slot, Loads};

use matrix_shape::pattern::Pattern;
use plan_fits::plan::Plan;
use plane::Block;

// The two rows of position i: both start at column `low`, at the places `upper` and `lower`.
#[derive(Clone, Copy)]
struct Rows {
    i: usize,
    low: usize,
    upper: usize,
    lower: usize,
}

// A block left of the diagonal.
#[tactic(auto, unfolding(crate::specs::Load::beside_of))]
fn beside(block: Block, up: usize, down: usize, values: &mut [f32])
    requires { Spot up down (length values.old) }
    ensures { values.new ≡ beside_of block up down values.old }
{
    values[up] = block[0][0];
    values[up + 1] = block[1][0];
    values[down] = block[0][1];
    values[down + 1] = block[1][1];
}

// A block on the diagonal, without its upper right entry. One function with `beside` would be no plainer: it would ask at one write of the four.
#[tactic(auto, unfolding(crate::specs::Load::corner_of))]
fn corner(block: Block, up: usize, down: usize, values: &mut [f32])
    requires { Spot up down (length values.old) }
    ensures { values.new ≡ corner_of block up down values.old }
{
    values[up] = block[0][0];
    values[down] = block[0][1];
    values[down + 1] = block[1][1];
}

// Slot k of a block row.
#[tactic(auto, unfolding(crate::specs::Load::slot_into))]
fn slot(cols: &[u32], blocks: &[f32], inv_perm: &[u32], rows: Rows, k: usize, values: &mut [f32])
    requires { Slot cols.now blocks.now inv_perm.now rows.i rows.low rows.upper rows.lower (length values.old) k }
    ensures { values.new ≡ slot_into (at cols.now) blocks.now (at inv_perm.now) rows.i rows.low rows.upper rows.lower k
        values.old }
{
    let c = law::wide(cols[k]);
    let j = law::wide(inv_perm[c]);
    if rows.i < j {
        return;
    }
    let off = 2 * j - rows.low;
    let block = vectors::inner::block_at(blocks, k);
    if j < rows.i {
        beside(block, rows.upper + off, rows.lower + off, values);
        return;
    }
    corner(block, rows.upper + off, rows.lower + off, values);
}

// The slots a..b of a block row, by number: it picks both the column and the block.
#[tactic(auto, unfolding(crate::specs::Load::slots_into), using(law::proofs::Loop::over_none, law::proofs::Loop::over_turn, law::proofs::Loop::over_done))]
fn slots(
    cols: &[u32],
    blocks: &[f32],
    inv_perm: &[u32],
    a: usize,
    b: usize,
    rows: Rows,
    values: &mut [f32],
)
    requires a_le_b { a ≤ b }
    requires by_index { (k : ℕ) → a ≤ k → k < b
        → Slot cols.now blocks.now inv_perm.now rows.i rows.low rows.upper rows.lower (length values.old) k }
    ensures { values.new ≡ slots_into (at cols.now) blocks.now (at inv_perm.now) rows.i rows.low rows.upper rows.lower a b
        values.old }
{
    for k in a..b {
        slot(cols, blocks, inv_perm, rows, k, values);
    }
}

// Block row r.
#[tactic(auto, unfolding(crate::specs::Load::row_into), using(crate::specs::Load::slot_of))]
pub fn row(pattern: &Pattern, blocks: &[f32], plan: &Plan, r: usize, values: &mut [f32])
    requires loads { Loads pattern.now.n pattern.now.row_offsets.now pattern.now.cols.now blocks.now
        plan.now.inv_perm.now plan.now.first.now plan.now.row_start.now }
    requires r_lt_n { (r < pattern.now.n) × (length values.old ≡ at plan.now.row_start.now (2 * pattern.now.n)) }
    ensures { values.new ≡ row_into (at pattern.now.row_offsets.now) (at pattern.now.cols.now) blocks.now
        (at plan.now.inv_perm.now) (at plan.now.first.now) (at plan.now.row_start.now) r values.old }
{
    let a = law::wide(pattern.row_offsets[r]);
    let b = law::wide(pattern.row_offsets[r + 1]);
    let i = law::wide(plan.inv_perm[r]);
    let row = 2 * i;
    let low = law::wide(plan.first[row]);
    let upper = law::wide(plan.row_start[row]);
    let lower = law::wide(plan.row_start[row + 1]);
    let rows = Rows {
        i,
        low,
        upper,
        lower,
    };
    slots(pattern.cols, blocks, plan.inv_perm, a, b, rows, values);
}
