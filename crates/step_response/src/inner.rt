// The response without its tally: it tests all that it is handed, refuses or does the work.
ghost use Rattle.law.specs.Promise.{Promise};
ghost use Rattle.step_routes.specs.System.{system_of};
ghost use Rattle.step_entries.specs.Lent.{entered_of};
ghost use Rattle.step_response.specs.Responding.{given, left, door};

use crate::{Responded, front, refuse};
use law::refusal::Refusal;
use step_entries::entries::Entries;
use step_routes::system::System;

#[tactic(auto, unfolding(law::specs::Promise::outcome))]
pub fn response_into(
    system: &System,
    pinned: &[u8],
    entries: &Entries,
    out: &mut [f32],
    rhs: &mut [f32],
    scratch: &mut [f32],
    residual: &mut [f32],
    direction: &mut [f32],
    a_direction: &mut [f32],
    z: &mut [f32],
) -> Result<Responded, Refusal>
    ensures { Promise door
        (given (system_of system.now) pinned.now (entered_of entries.now) out.old rhs.old scratch.old
        residual.old direction.old a_direction.old z.old)
        (left result out.new rhs.new scratch.new residual.new direction.new a_direction.new
        z.new) }
{
    refuse::responding(
        system,
        pinned,
        entries,
        out,
        rhs,
        scratch,
        residual,
        direction,
        a_direction,
        z,
    )?;
    Ok(front::respond(
        system,
        pinned,
        entries,
        out,
        rhs,
        scratch,
        residual,
        direction,
        a_direction,
        z,
    ))
}
