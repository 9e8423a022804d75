// The refusal of a response. Tests run in phases, so that none reads past a list's end.
// The lists to be written come as the calls have them, one by one.
ghost use Rattle.std.specs.Prelude.{◌≡◌};
ghost use Rattle.law.specs.Refusal.{verdict};
ghost use Rattle.step_routes.specs.System.{system_of};
ghost use Rattle.step_entries.specs.Lent.{entered_of};
ghost use Rattle.step_response.specs.Responding.{given, refusals};

use law::refusal::{Refusal, ensure};
use step_entries::entries::Entries;
use step_routes::system::System;

#[tactic(auto, unfolding(law::specs::Refusal::verdict, crate::specs::Responding::refusals))]
pub fn responding(
    system: &System,
    pinned: &[u8],
    entries: &Entries,
    out: &[f32],
    rhs: &[f32],
    scratch: &[f32],
    residual: &[f32],
    direction: &[f32],
    a_direction: &[f32],
    z: &[f32],
) -> Result<(), Refusal>
    ensures { result ≡ verdict
        (refusals (given (system_of system.now) pinned.now (entered_of entries.now) out.now rhs.now
        scratch.now residual.now direction.now a_direction.now z.now)) }
{
    let n = system.pattern.n;
    ensure(n <= law::PARTICLES, Refusal::TooManyParticles)?;
    ensure(entries.count <= law::ENTRIES, Refusal::TooManyEntries)?;
    ensure(
        step_routes::refuse::room(
            system,
            rhs,
            out,
            scratch,
            residual,
            direction,
            a_direction,
            z,
        ),
        Refusal::ShortBuffer,
    )?;
    ensure(entries.has_room(n, pinned), Refusal::ShortBuffer)?;
    ensure(entries.all_below(n), Refusal::OutOfRange)?;
    step_routes::refuse::later(system)
}
