// The response, counted. Accepted, five lent places have its gain and tell how its step solve ended,
// as a step solve's places do, or by 6 that none was asked for; a refusal leaves them.
ghost use Rattle.matrix_shape.specs.Shape.{shape};
ghost use Rattle.plan_fits.specs.Layout.{layout};
ghost use Rattle.step_routes.specs.System.{system};
ghost use Rattle.step_entries.specs.Lent.{entered};
ghost use Rattle.step_response.specs.Responding as responding;
ghost use Rattle.step_counts.specs.Counting.{after_response};
ghost use Rattle.abi_answers.specs.Numbers.{answered};
ghost use Rattle.abi_answers.specs.Telling.{places};
ghost use Rattle.abi_step_answers.specs.Counts.{Tallied};
ghost use Rattle.abi_step_answers.specs.Responses.{gained, gained_of};

use abi_answers::ended::Places;
use abi_answers::number;
use abi_step_answers::counts;
use abi_step_answers::responded::Gained;
use gradient_definition::Settings;
use matrix_shape::pattern::Pattern;
use plan_fits::plan::Plan;
use step_entries::entries::Entries;
use step_routes::system::System;

#[unsafe(no_mangle)]
pub extern "C" fn bracket_response_into(
    n: usize,
    row_offsets: &[u32],
    cols: &[u32],
    diagonal: &[u32],
    blocks: &[f32],
    perm: &[u32],
    inv_perm: &[u32],
    first: &[u32],
    row_start: &[u32],
    values: &[f32],
    factored: bool,
    preconditioner: &[f32],
    tolerance: f32,
    max_iterations: usize,
    max_dense_dofs: usize,
    pinned: &[u8],
    entries: usize,
    particles: &[u32],
    gradients: &[f32],
    out: &mut [f32],
    rhs: &mut [f32],
    scratch: &mut [f32],
    residual: &mut [f32],
    direction: &mut [f32],
    a_direction: &mut [f32],
    z: &mut [f32],
    counts: &mut [u32; 7],
    gain: &mut f32,
    how: &mut u32,
    count: &mut usize,
    residual_squared: &mut f32,
    denominator: &mut f32,
) -> u8
    ensures { Tallied responding.door (λ o. o.answer) answered gained_of after_response
        (responding.given
        (system (shape n row_offsets.now cols.now diagonal.now) blocks.now
        (layout perm.now inv_perm.now first.now row_start.now) values.now factored
        preconditioner.now tolerance max_iterations max_dense_dofs)
        pinned.now (entered entries particles.now gradients.now) out.old
        rhs.old scratch.old residual.old direction.old a_direction.old z.old)
        result
        (λ a. responding.left a out.new rhs.new scratch.new residual.new direction.new
        a_direction.new z.new)
        (gained gain.old (places how.old count.old residual_squared.old denominator.old))
        (gained gain.new (places how.new count.new residual_squared.new denominator.new))
        counts.old counts.new }
{
    let pattern = Pattern {
        n,
        row_offsets,
        cols,
        diagonal,
    };
    let plan = Plan {
        perm,
        inv_perm,
        first,
        row_start,
    };
    let settings = Settings {
        tolerance,
        max_iterations,
    };
    let system = System {
        pattern,
        blocks,
        plan,
        values,
        factored,
        preconditioner,
        settings,
        max_dense_dofs,
    };
    let entries = Entries {
        count: entries,
        particles,
        gradients,
    };
    let answer = step_response::inner::response_into(
        &system,
        pinned,
        &entries,
        out,
        rhs,
        scratch,
        residual,
        direction,
        a_direction,
        z,
    );
    *counts = counts::counted(*counts, step_counts::asked::by_response(answer));
    let before = Gained {
        gain: *gain,
        told: Places {
            how: *how,
            count: *count,
            residual_squared: *residual_squared,
            denominator: *denominator,
        },
    };
    let after = before.after(answer);
    *gain = after.gain;
    *how = after.told.how;
    *count = after.told.count;
    *residual_squared = after.told.residual_squared;
    *denominator = after.told.denominator;
    number(&answer)
}
