// The step's factor; the step solve and the response, each counted in the tally that the caller lends (rules, modules 6 and 7). THE DOORS of the
// latter two are thin functions over the calls by value.
// Lists lent by `&mut` stay parameters: in a struct each clause would have to say that every field keeps its reference.
#![tactic(auto)]

ghost use Rattle.law.specs.Promise.{Promise, Counted};
ghost use Rattle.matrix_shape.specs.Shape.{lists};
ghost use Rattle.plan_fits.specs.Layout.{plan_lists};
ghost use Rattle.step_routes.specs.System.{system_of};
ghost use Rattle.step_entries.specs.Lent.{entered_of};
ghost use Rattle.step_solve.specs.Marking as marking;
ghost use Rattle.step_solve.specs.Stepping as stepping;
ghost use Rattle.step_response.specs.Responding as responding;
ghost use Rattle.step_counts.specs.Counting.{after_step, after_response};

use law::refusal::Refusal;
use matrix_shape::pattern::Pattern;
use plan_fits::plan::Plan;
use step_entries::entries::Entries;
use step_response::Responded;
use step_routes::system::System;
use step_solve::{Marked, Stepped, front, refuse};
use step_tally::Tally;

// The factor where 2n is at most max_dense_dofs; the preconditioner where 2n is above it or the factor failed.
#[tactic(auto, unfolding(law::specs::Promise::outcome))]
pub fn factorize_step_matrix(
    pattern: &Pattern,
    blocks: &[f32],
    plan: &Plan,
    max_dense_dofs: usize,
    values: &mut [f32],
    preconditioner: &mut [f32],
) -> Result<Marked, Refusal>
    ensures { Promise marking.door
        (marking.given (lists pattern.now) blocks.now (plan_lists plan.now) max_dense_dofs
        values.old preconditioner.old)
        (marking.left result values.new preconditioner.new) }
{
    refuse::marking(
        pattern,
        blocks,
        plan,
        max_dense_dofs,
        values,
        preconditioner,
    )?;
    Ok(front::mark(
        pattern,
        blocks,
        plan,
        max_dense_dofs,
        values,
        preconditioner,
    ))
}

// A x = b by the step's factor if 2n is at most max_dense_dofs and the mark is set; otherwise x is zeroed and iterated.
pub fn solve_step(
    system: &System,
    b: &[f32],
    x: &mut [f32],
    scratch: &mut [f32],
    residual: &mut [f32],
    direction: &mut [f32],
    a_direction: &mut [f32],
    z: &mut [f32],
    tally: &mut Tally,
) -> Result<Stepped, Refusal>
    ensures { Counted stepping.door after_step
        (stepping.given (system_of system.now) b.now x.old scratch.old residual.old
        direction.old a_direction.old z.old)
        tally.old
        (stepping.left result x.new scratch.new residual.new direction.new a_direction.new
        z.new)
        tally.new }
{
    let r = step_solve::inner::solve_step(
        system,
        b,
        x,
        scratch,
        residual,
        direction,
        a_direction,
        z,
    );
    step_tally::count(tally, step_counts::asked::by_step(r));
    r
}

// The answer to a constraint: its unpinned entries' gradients, added up, are the
// right-hand side of a step solve into out, and the gain is their product with it.
pub fn response_into(
    system: &System,
    pinned: &[u8],
    entries: &Entries,
    out: &mut [f32],
    rhs: &mut [f32],
    scratch: &mut [f32],
    residual: &mut [f32],
    direction: &mut [f32],
    a_direction: &mut [f32],
    z: &mut [f32],
    tally: &mut Tally,
) -> Result<Responded, Refusal>
    ensures { Counted responding.door after_response
        (responding.given (system_of system.now) pinned.now (entered_of entries.now) out.old rhs.old
        scratch.old residual.old direction.old a_direction.old z.old)
        tally.old
        (responding.left result out.new rhs.new scratch.new residual.new direction.new
        a_direction.new z.new)
        tally.new }
{
    let r = step_response::inner::response_into(
        system,
        pinned,
        entries,
        out,
        rhs,
        scratch,
        residual,
        direction,
        a_direction,
        z,
    );
    step_tally::count(tally, step_counts::asked::by_response(r));
    r
}
