// The two calls are thin functions over the doors: each lends a record of its own.
// Lists lent by `&mut` stay parameters: in a struct each clause would have to say that every field keeps its reference.
ghost use Rattle.law.specs.Promise.{Counted};
ghost use Rattle.step_routes.specs.System.{system_of};
ghost use Rattle.step_entries.specs.Lent.{entered_of};
ghost use Rattle.step_solve.specs.Stepping as stepping;
ghost use Rattle.step_response.specs.Responding as responding;
ghost use Rattle.step_counts.specs.Counting.{after_step, after_response};

use crate::After;
use law::refusal::Refusal;
use step_entries::entries::Entries;
use step_response::Responded;
use step_routes::system::System;
use step_solve::Stepped;
use step_tally::Tally;

pub fn solve_step(
    system: &System,
    b: &[f32],
    x: &mut [f32],
    scratch: &mut [f32],
    residual: &mut [f32],
    direction: &mut [f32],
    a_direction: &mut [f32],
    z: &mut [f32],
    tally: Tally,
) -> After<Result<Stepped, Refusal>>
    ensures { Counted stepping.door after_step
        (stepping.given (system_of system.now) b.now x.old scratch.old residual.old
        direction.old a_direction.old z.old)
        tally
        (stepping.left result.answer x.new scratch.new residual.new direction.new a_direction.new
        z.new)
        result.tally }
{
    let mut lent = tally;
    let stepped = step_doors::solve_step(
        system,
        b,
        x,
        scratch,
        residual,
        direction,
        a_direction,
        z,
        &mut lent,
    );
    After {
        answer: stepped,
        tally: lent,
    }
}

pub fn response_into(
    system: &System,
    pinned: &[u8],
    entries: &Entries,
    out: &mut [f32],
    rhs: &mut [f32],
    scratch: &mut [f32],
    residual: &mut [f32],
    direction: &mut [f32],
    a_direction: &mut [f32],
    z: &mut [f32],
    tally: Tally,
) -> After<Result<Responded, Refusal>>
    ensures { Counted responding.door after_response
        (responding.given (system_of system.now) pinned.now (entered_of entries.now) out.old rhs.old
        scratch.old residual.old direction.old a_direction.old z.old)
        tally
        (responding.left result.answer out.new rhs.new scratch.new residual.new direction.new
        a_direction.new z.new)
        result.tally }
{
    let mut lent = tally;
    let responded = step_doors::response_into(
        system,
        pinned,
        entries,
        out,
        rhs,
        scratch,
        residual,
        direction,
        a_direction,
        z,
        &mut lent,
    );
    After {
        answer: responded,
        tally: lent,
    }
}
