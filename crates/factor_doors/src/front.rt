// The fronts of the lent lists that the work needs are lent on.
ghost use Rattle.std.specs.Prelude.{◌≡◌};
ghost use Rattle.matrix_shape.specs.Shape.{lists};
ghost use Rattle.plan_fits.specs.Layout.{plan_lists};
ghost use Rattle.factor_doors.specs.Factorizing as factorizing;
ghost use Rattle.factor_doors.specs.Solving as solving;

use factor_make::Failed;
use matrix_shape::pattern::Pattern;
use plan_fits::plan::Plan;

#[tactic(auto, unfolding(plan_fits::specs::Given::factor_length))]
pub fn factorize(
    pattern: &Pattern,
    blocks: &[f32],
    plan: &Plan,
    values: &mut [f32],
) -> Result<(), Failed>
    requires { factorizing.Ready (factorizing.given (lists pattern.now) blocks.now (plan_lists plan.now) values.old) }
    ensures { factorizing.left (Ok result) values.new ≡ factorizing.work
        (factorizing.given (lists pattern.now) blocks.now (plan_lists plan.now) values.old) }
{
    let len = plan.factor_len(pattern.n);
    factor_make::inner::factorize_matrix(pattern, blocks, plan, &mut values[..len])
}

pub fn solve(n: usize, plan: &Plan, values: &[f32], b: &[f32], x: &mut [f32], scratch: &mut [f32])
    requires { solving.Ready (solving.given n (plan_lists plan.now) values.now b.now x.old scratch.old) }
    ensures { solving.left (Ok tt) x.new scratch.new ≡ solving.work
        (solving.given n (plan_lists plan.now) values.now b.now x.old scratch.old) }
{
    let m = 2 * n;
    factor_substitution::inner::solve(n, plan, values, b, &mut x[..m], &mut scratch[..m]);
}
