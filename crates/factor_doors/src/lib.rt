// The direct solver over lent slices, soft_fem_skyline.rs's SkylineCholesky once it is planned (rules, module 4). THE DOORS: each tests all that it
// is handed, refuses or does the work. A plan is its order, inverse, first columns and row starts; its last row start is the factor's length.
#![tactic(auto)]

ghost use Rattle.law.specs.Promise.{Promise};
ghost use Rattle.matrix_shape.specs.Shape.{lists};
ghost use Rattle.plan_fits.specs.Layout.{plan_lists};
ghost use Rattle.factor_doors.specs.Factorizing as factorizing;
ghost use Rattle.factor_doors.specs.Solving as solving;

use factor_make::Failed;
use law::refusal::Refusal;
use matrix_shape::pattern::Pattern;
use plan_fits::plan::Plan;

pub mod front;
pub mod refuse;

// The factor of the matrix into the values, in the plan's order and envelope. A pivot that isn't above zero is no refusal: it ends the work.
#[tactic(auto, unfolding(law::specs::Promise::outcome))]
pub fn factorize(
    pattern: &Pattern,
    blocks: &[f32],
    plan: &Plan,
    values: &mut [f32],
) -> Result<Result<(), Failed>, Refusal>
    ensures { Promise factorizing.door
        (factorizing.given (lists pattern.now) blocks.now (plan_lists plan.now) values.old)
        (factorizing.left result values.new) }
{
    refuse::factorizing(pattern, blocks, plan, values)?;
    Ok(front::factorize(pattern, blocks, plan, values))
}

// x solves A x = b by the factor of A that the values hold, as they stand.
#[tactic(auto, unfolding(law::specs::Promise::outcome))]
pub fn solve(
    n: usize,
    plan: &Plan,
    values: &[f32],
    b: &[f32],
    x: &mut [f32],
    scratch: &mut [f32],
) -> Result<(), Refusal>
    ensures { Promise solving.door
        (solving.given n (plan_lists plan.now) values.now b.now x.old scratch.old)
        (solving.left result x.new scratch.new) }
{
    refuse::solving(n, plan, values, b, x, scratch)?;
    front::solve(n, plan, values, b, x, scratch);
    Ok(())
}
