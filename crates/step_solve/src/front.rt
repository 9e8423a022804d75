// The work of the calls, once their tests have passed.
// Lists lent by `&mut` stay parameters: in a struct each clause would have to say that every field keeps its reference.
ghost use Rattle.std.specs.Prelude.{◌≡◌, ◌*◌, ◌≤◌, length, Ok};
ghost use Rattle.gradient_definition.specs.Inverse.{Slots};
ghost use Rattle.matrix_shape.specs.Shape.{lists};
ghost use Rattle.plan_fits.specs.Layout.{plan_lists};
ghost use Rattle.step_routes.specs.System.{system_of};
ghost use Rattle.step_solve.specs.Stepping as stepping;
ghost use Rattle.step_solve.specs.Marking as marking;

use crate::{Marked, Stepped};
use factor_make::Failed;
use matrix_shape::pattern::Pattern;
use plan_fits::plan::Plan;
use step_routes::system::System;

// By the factor if the plan counts and the mark is set; otherwise x is zeroed and iterated.
pub fn route(
    system: &System,
    b: &[f32],
    x: &mut [f32],
    scratch: &mut [f32],
    residual: &mut [f32],
    direction: &mut [f32],
    a_direction: &mut [f32],
    z: &mut [f32],
) -> Stepped
    requires { stepping.Ready
        (stepping.given (system_of system.now) b.now x.old scratch.old residual.old direction.old a_direction.old z.old) }
    ensures { stepping.left (Ok result) x.new scratch.new residual.new direction.new a_direction.new
        z.new ≡ stepping.work
        (stepping.given (system_of system.now) b.now x.old scratch.old residual.old
        direction.old a_direction.old z.old) }
{
    let n = system.pattern.n;
    let dense = system.dense();
    if dense & system.factored {
        factor_doors::front::solve(n, &system.plan, system.values, b, x, scratch);
        step_routes::front::clear4(n, residual, direction, a_direction, z);
        return Stepped::Direct;
    }
    let o = step_routes::front::solve_from_zero(system, b, x, residual, direction, a_direction, z);
    step_routes::front::sweep(dense, n, scratch);
    Stepped::Iterated(o)
}

// The preconditioner is updated only where the factor failed.
#[tactic(auto, unfolding(crate::specs::Marking::renewed))]
fn settle(
    pattern: &Pattern,
    blocks: &[f32],
    how: Result<(), Failed>,
    preconditioner: &mut [f32],
) -> Marked
    requires slots { Slots pattern.now.n pattern.now.diagonal.now blocks.now }
    requires n_in_bounds { 4 * pattern.now.n ≤ length preconditioner.old }
    ensures { (Ok result ≡ marking.mark_of (Ok how)) ×
        (preconditioner.new ≡ marking.fallback (Ok how) preconditioner.old
        (marking.renewed pattern.now.n pattern.now.diagonal.now blocks.now preconditioner.old)) }
{
    match how {
        Ok(()) => Marked::Direct,
        Err(Failed { row, pivot }) => {
            gradient_preconditioner::inner::update_preconditioner(pattern, blocks, preconditioner);
            Marked::Failed { row, pivot }
        }
    }
}

pub fn mark(
    pattern: &Pattern,
    blocks: &[f32],
    plan: &Plan,
    max_dense_dofs: usize,
    values: &mut [f32],
    preconditioner: &mut [f32],
) -> Marked
    requires { marking.Ready
        (marking.given (lists pattern.now) blocks.now (plan_lists plan.now) max_dense_dofs values.old preconditioner.old) }
    ensures { marking.left (Ok result) values.new preconditioner.new ≡ marking.work
        (marking.given (lists pattern.now) blocks.now (plan_lists plan.now) max_dense_dofs
        values.old preconditioner.old) }
{
    if 2 * pattern.n <= max_dense_dofs {
        let how = factor_doors::front::factorize(pattern, blocks, plan, values);
        return settle(pattern, blocks, how, preconditioner);
    }
    gradient_preconditioner::inner::update_preconditioner(pattern, blocks, preconditioner);
    Marked::Iterative
}
