// For measuring only, like measured.rt: the step's work.
ghost use Rattle.matrix_shape.specs.Shape.{shape};
ghost use Rattle.plan_fits.specs.Layout.{layout};
ghost use Rattle.step_routes.specs.System.{system};
ghost use Rattle.step_entries.specs.Lent.{entered};
ghost use Rattle.step_solve.specs.Stepping as stepping;
ghost use Rattle.step_response.specs.Responding as responding;

use gradient_definition::Settings;
use matrix_shape::pattern::Pattern;
use plan_fits::plan::Plan;
use step_entries::entries::Entries;
use step_response::Responded;
use step_routes::system::System;
use step_solve::Stepped;

// Answers whether it was the factor's route.
#[unsafe(no_mangle)]
pub extern "C" fn inside_step_route(
    n: usize,
    row_offsets: &[u32],
    cols: &[u32],
    diagonal: &[u32],
    blocks: &[f32],
    perm: &[u32],
    inv_perm: &[u32],
    first: &[u32],
    row_start: &[u32],
    values: &[f32],
    factored: bool,
    preconditioner: &[f32],
    b: &[f32],
    tolerance: f32,
    max_iterations: usize,
    max_dense_dofs: usize,
    x: &mut [f32],
    scratch: &mut [f32],
    residual: &mut [f32],
    direction: &mut [f32],
    a_direction: &mut [f32],
    z: &mut [f32],
) -> bool
    requires { stepping.Ready
        (stepping.given (system (shape n row_offsets.now cols.now diagonal.now) blocks.now
        (layout perm.now inv_perm.now first.now row_start.now) values.now factored preconditioner.now tolerance max_iterations
        max_dense_dofs) b.now x.old scratch.old residual.old direction.old a_direction.old z.old) }
{
    let system = System {
        pattern: Pattern {
            n,
            row_offsets,
            cols,
            diagonal,
        },
        blocks,
        plan: Plan {
            perm,
            inv_perm,
            first,
            row_start,
        },
        values,
        factored,
        preconditioner,
        settings: Settings {
            tolerance,
            max_iterations,
        },
        max_dense_dofs,
    };
    let stepped = step_solve::front::route(
        &system,
        b,
        x,
        scratch,
        residual,
        direction,
        a_direction,
        z,
    );
    match stepped {
        Stepped::Direct => true,
        Stepped::Iterated(_) => false,
    }
}

fn gain_of(r: Responded) -> f32 {
    match r {
        Responded::Nothing => 0.0,
        Responded::Direct { gain } | Responded::Iterated { gain, .. } => gain,
    }
}

// Answers the gain.
#[unsafe(no_mangle)]
pub extern "C" fn inside_respond(
    n: usize,
    row_offsets: &[u32],
    cols: &[u32],
    diagonal: &[u32],
    blocks: &[f32],
    perm: &[u32],
    inv_perm: &[u32],
    first: &[u32],
    row_start: &[u32],
    values: &[f32],
    factored: bool,
    preconditioner: &[f32],
    tolerance: f32,
    max_iterations: usize,
    max_dense_dofs: usize,
    pinned: &[u8],
    entries: usize,
    particles: &[u32],
    gradients: &[f32],
    out: &mut [f32],
    rhs: &mut [f32],
    scratch: &mut [f32],
    residual: &mut [f32],
    direction: &mut [f32],
    a_direction: &mut [f32],
    z: &mut [f32],
) -> f32
    requires { responding.Ready
        (responding.given (system (shape n row_offsets.now cols.now diagonal.now) blocks.now
        (layout perm.now inv_perm.now first.now row_start.now) values.now factored preconditioner.now tolerance max_iterations
        max_dense_dofs) pinned.now (entered entries particles.now gradients.now) out.old rhs.old scratch.old residual.old
        direction.old a_direction.old z.old) }
{
    let system = System {
        pattern: Pattern {
            n,
            row_offsets,
            cols,
            diagonal,
        },
        blocks,
        plan: Plan {
            perm,
            inv_perm,
            first,
            row_start,
        },
        values,
        factored,
        preconditioner,
        settings: Settings {
            tolerance,
            max_iterations,
        },
        max_dense_dofs,
    };
    let listed = Entries {
        count: entries,
        particles,
        gradients,
    };
    gain_of(step_response::front::respond(
        &system,
        pinned,
        &listed,
        out,
        rhs,
        scratch,
        residual,
        direction,
        a_direction,
        z,
    ))
}
