// The factor of a matrix in lent slices. What these require, the doors have tested.
ghost use Rattle.std.specs.Prelude.{◌≡◌, ◌*◌, length};
ghost use Rattle.matrix_shape.specs.Rows.{at};
ghost use Rattle.factor_make.specs.Factor.{state, factor_of, Envelope};
ghost use Rattle.factor_make.specs.Matrix.{matrix_of};
ghost use Rattle.factor_load.specs.Load.{Loads};

use crate::{Failed, rows};
use matrix_shape::pattern::Pattern;
use plan_fits::plan::Plan;

// Cholesky's factor of the loaded matrix, in place, by number: a row's turn reads the rows before it.
#[tactic(auto, unfolding(crate::specs::Factor::factor_of, crate::specs::Factor::row_step), using(law::proofs::Loop::over_none, law::proofs::Loop::over_turn, law::proofs::Loop::over_done, law::proofs::Loop::over_stays))]
pub fn factorize(rows: usize, plan: &Plan, values: &mut [f32]) -> Result<(), Failed>
    requires { Envelope rows plan.now.first.now plan.now.row_start.now values.old }
    ensures { state result values.new ≡ factor_of (at plan.now.first.now) (at plan.now.row_start.now) rows values.old }
{
    for i in 0..rows {
        rows::row(rows, plan, i, values)?;
    }
    Ok(())
}

// The matrix loaded and factored.
#[tactic(auto, unfolding(crate::specs::Matrix::matrix_of))]
pub fn factorize_matrix(
    pattern: &Pattern,
    blocks: &[f32],
    plan: &Plan,
    values: &mut [f32],
) -> Result<(), Failed>
    requires loads { Loads pattern.now.n pattern.now.row_offsets.now pattern.now.cols.now blocks.now
        plan.now.inv_perm.now plan.now.first.now plan.now.row_start.now }
    requires values_len { length values.old ≡ at plan.now.row_start.now (2 * pattern.now.n) }
    ensures { state result values.new ≡ matrix_of pattern.now.n (at pattern.now.row_offsets.now) (at pattern.now.cols.now)
        blocks.now (at plan.now.inv_perm.now) (at plan.now.first.now) (at plan.now.row_start.now) }
{
    factor_load::inner::load(pattern, blocks, plan, values);
    factorize(2 * pattern.n, plan, values)
}
