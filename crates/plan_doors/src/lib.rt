// The plan of an envelope factor, soft_fem_skyline.rs's SkylineCholesky::new (rules, module 4): the order of a pattern's particles, its
// inverse, and where each row of the envelope starts. THE DOOR `plan` tests all that it is handed, refuses or does the work.
// The nine lists that are written stay parameters: of a struct of them each clause would have to say that its fields keep their references.
#![tactic(auto)]

ghost use Rattle.law.specs.Promise.{Promise};
ghost use Rattle.matrix_shape.specs.Shape.{lists};
ghost use Rattle.plan_make.specs.Plan.{four};
ghost use Rattle.plan_make.specs.Parts.{five};
ghost use Rattle.plan_doors.specs.Planning.{given, left, door};

use law::refusal::{Refusal, ensure};
use matrix_shape::pattern::Pattern;

pub mod front;
mod refuse;

// The plan of a pattern. That the envelope is too long is found by doing the work, in the work lists alone.
// Answers how long the envelope is.
pub fn plan(
    pattern: &Pattern,
    perm: &mut [u32],
    inv_perm: &mut [u32],
    first: &mut [u32],
    row_start: &mut [u32],
    degrees: &mut [u32],
    placed: &mut [u32],
    mark: &mut [u32],
    level: &mut [u32],
    queue: &mut [u32],
) -> Result<usize, Refusal>
    ensures { Promise door
        (given (lists pattern.now) (four perm.old inv_perm.old first.old row_start.old)
        (five degrees.old placed.old mark.old level.old queue.old))
        (left result (four perm.new inv_perm.new first.new row_start.new)
        (five degrees.new placed.new mark.new level.new queue.new)) }
{
    refuse::planning(
        pattern, perm, inv_perm, first, row_start, degrees, placed, mark, level, queue,
    )?;
    let len = front::plan(
        pattern, perm, inv_perm, first, row_start, degrees, placed, mark, level, queue,
    );
    ensure(len <= law::ENVELOPE, Refusal::LongEnvelope)?;
    Ok(len)
}
