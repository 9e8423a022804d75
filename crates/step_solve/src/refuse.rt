// The refusals of the calls. Tests run in phases, so that none reads past a list's end.
// The lists to be written come as the calls have them, one by one.
ghost use Rattle.std.specs.Prelude.{◌≡◌};
ghost use Rattle.law.specs.Refusal.{verdict};
ghost use Rattle.matrix_shape.specs.Shape.{lists};
ghost use Rattle.plan_fits.specs.Layout.{plan_lists};
ghost use Rattle.step_routes.specs.System.{system_of};
ghost use Rattle.step_solve.specs.Stepping as stepping;
ghost use Rattle.step_solve.specs.Marking as marking;

use law::refusal::{Refusal, ensure};
use matrix_shape::pattern::Pattern;
use plan_fits::plan::Plan;
use step_routes::system::System;

#[tactic(auto, unfolding(law::specs::Refusal::verdict, crate::specs::Stepping::refusals))]
pub fn stepping(
    system: &System,
    b: &[f32],
    x: &[f32],
    scratch: &[f32],
    residual: &[f32],
    direction: &[f32],
    a_direction: &[f32],
    z: &[f32],
) -> Result<(), Refusal>
    ensures { result ≡ verdict
        (stepping.refusals (stepping.given (system_of system.now) b.now x.now scratch.now
        residual.now direction.now a_direction.now z.now)) }
{
    ensure(
        system.pattern.n <= law::PARTICLES,
        Refusal::TooManyParticles,
    )?;
    ensure(
        step_routes::refuse::room(system, b, x, scratch, residual, direction, a_direction, z),
        Refusal::ShortBuffer,
    )?;
    step_routes::refuse::later(system)
}

#[tactic(auto, unfolding(law::specs::Refusal::verdict, crate::specs::Marking::refusals), using(matrix_shape::specs::Given::held))]
pub fn marking(
    pattern: &Pattern,
    blocks: &[f32],
    plan: &Plan,
    max_dense_dofs: usize,
    values: &[f32],
    preconditioner: &[f32],
) -> Result<(), Refusal>
    ensures { result ≡ verdict
        (marking.refusals (marking.given (lists pattern.now) blocks.now (plan_lists plan.now)
        max_dense_dofs values.now preconditioner.now)) }
{
    ensure(pattern.n <= law::PARTICLES, Refusal::TooManyParticles)?;
    ensure(pattern.has_room(), Refusal::ShortBuffer)?;
    ensure(
        gradient_refusals::refuse::inverses_room(pattern, blocks, preconditioner),
        Refusal::ShortBuffer,
    )?;
    let dense = 2 * pattern.n <= max_dense_dofs;
    ensure(
        step_routes::dense::plan_held(dense, pattern.n, plan, values),
        Refusal::ShortBuffer,
    )?;
    step_routes::refuse::structure(dense, pattern, plan)
}
