// The step solve, counted. Accepted, four lent places tell how it ended: 0 for the factor,
// with no count and no floats, or the outcome's number; a refusal leaves them.
ghost use Rattle.matrix_shape.specs.Shape.{shape};
ghost use Rattle.plan_fits.specs.Layout.{layout};
ghost use Rattle.step_routes.specs.System.{system};
ghost use Rattle.step_solve.specs.Stepping as stepping;
ghost use Rattle.step_counts.specs.Counting.{after_step};
ghost use Rattle.abi_answers.specs.Numbers.{answered};
ghost use Rattle.abi_answers.specs.Telling.{places};
ghost use Rattle.abi_step_answers.specs.Counts.{Tallied};
ghost use Rattle.abi_step_answers.specs.Steps.{places_of};

use abi_answers::ended::Places;
use abi_answers::number;
use abi_step_answers::{counts, stepped};
use gradient_definition::Settings;
use matrix_shape::pattern::Pattern;
use plan_fits::plan::Plan;
use step_routes::system::System;

#[unsafe(no_mangle)]
pub extern "C" fn bracket_solve_step(
    n: usize,
    row_offsets: &[u32],
    cols: &[u32],
    diagonal: &[u32],
    blocks: &[f32],
    perm: &[u32],
    inv_perm: &[u32],
    first: &[u32],
    row_start: &[u32],
    values: &[f32],
    factored: bool,
    preconditioner: &[f32],
    b: &[f32],
    tolerance: f32,
    max_iterations: usize,
    max_dense_dofs: usize,
    x: &mut [f32],
    scratch: &mut [f32],
    residual: &mut [f32],
    direction: &mut [f32],
    a_direction: &mut [f32],
    z: &mut [f32],
    counts: &mut [u32; 7],
    how: &mut u32,
    count: &mut usize,
    residual_squared: &mut f32,
    denominator: &mut f32,
) -> u8
    ensures { Tallied stepping.door (λ o. o.answer) answered places_of after_step
        (stepping.given
        (system (shape n row_offsets.now cols.now diagonal.now) blocks.now
        (layout perm.now inv_perm.now first.now row_start.now) values.now factored
        preconditioner.now tolerance max_iterations max_dense_dofs)
        b.now x.old scratch.old residual.old direction.old a_direction.old z.old)
        result
        (λ a. stepping.left a x.new scratch.new residual.new direction.new a_direction.new
        z.new)
        (places how.old count.old residual_squared.old denominator.old)
        (places how.new count.new residual_squared.new denominator.new)
        counts.old counts.new }
{
    let pattern = Pattern {
        n,
        row_offsets,
        cols,
        diagonal,
    };
    let plan = Plan {
        perm,
        inv_perm,
        first,
        row_start,
    };
    let settings = Settings {
        tolerance,
        max_iterations,
    };
    let system = System {
        pattern,
        blocks,
        plan,
        values,
        factored,
        preconditioner,
        settings,
        max_dense_dofs,
    };
    let answer = step_solve::inner::solve_step(
        &system,
        b,
        x,
        scratch,
        residual,
        direction,
        a_direction,
        z,
    );
    *counts = counts::counted(*counts, step_counts::asked::by_step(answer));
    let before = Places {
        how: *how,
        count: *count,
        residual_squared: *residual_squared,
        denominator: *denominator,
    };
    let after = stepped::after(before, answer);
    *how = after.how;
    *count = after.count;
    *residual_squared = after.residual_squared;
    *denominator = after.denominator;
    number(&answer)
}
