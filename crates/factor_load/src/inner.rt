// The load of a matrix in lent slices. What it requires, the doors have tested.
ghost use Rattle.std.specs.Prelude.{◌≡◌, ◌*◌, length};
ghost use Rattle.matrix_shape.specs.Rows.{at};
ghost use Rattle.factor_load.specs.Load.{load_of, Loads};

use crate::blocks;
use matrix_shape::pattern::Pattern;
use plan_fits::plan::Plan;

// The lower triangle of the permuted matrix, and +0.0 in every other place of the envelope. A row is a number: it picks in three lists.
#[tactic(auto, unfolding(crate::specs::Load::load_of), using(law::proofs::Loop::over_none, law::proofs::Loop::over_turn, law::proofs::Loop::over_done))]
pub fn load(pattern: &Pattern, blocks: &[f32], plan: &Plan, values: &mut [f32])
    requires loads { Loads pattern.now.n pattern.now.row_offsets.now pattern.now.cols.now blocks.now
        plan.now.inv_perm.now plan.now.first.now plan.now.row_start.now }
    requires values_len { length values.old ≡ at plan.now.row_start.now (2 * pattern.now.n) }
    ensures { values.new ≡ load_of pattern.now.n (at pattern.now.row_offsets.now) (at pattern.now.cols.now) blocks.now
        (at plan.now.inv_perm.now) (at plan.now.first.now) (at plan.now.row_start.now) }
{
    values.fill(0.0);
    for r in 0..pattern.n {
        blocks::row(pattern, blocks, plan, r, values);
    }
}
