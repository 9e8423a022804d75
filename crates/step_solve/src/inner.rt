// The step solve without its tally: it tests all that it is handed, refuses or does the work.
ghost use Rattle.law.specs.Promise.{Promise};
ghost use Rattle.step_routes.specs.System.{system_of};
ghost use Rattle.step_solve.specs.Stepping.{given, left, door};

use crate::{Stepped, front, refuse};
use law::refusal::Refusal;
use step_routes::system::System;

#[tactic(auto, unfolding(law::specs::Promise::outcome))]
pub fn solve_step(
    system: &System,
    b: &[f32],
    x: &mut [f32],
    scratch: &mut [f32],
    residual: &mut [f32],
    direction: &mut [f32],
    a_direction: &mut [f32],
    z: &mut [f32],
) -> Result<Stepped, Refusal>
    ensures { Promise door
        (given (system_of system.now) b.now x.old scratch.old residual.old direction.old
        a_direction.old z.old)
        (left result x.new scratch.new residual.new direction.new a_direction.new z.new) }
{
    refuse::stepping(system, b, x, scratch, residual, direction, a_direction, z)?;
    Ok(front::route(system, b, x, scratch, residual, direction, a_direction, z))
}
