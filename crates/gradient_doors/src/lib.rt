// The conjugate gradient over lent slices, soft_fem_sparse.rs's ConjugateGradient (rules, module 5). THE DOORS: each tests all that it is
// handed, refuses or does the work. Vectors are two floats to a particle, values and the preconditioner four to a block.
// Lists lent by &mut come one by one: of a struct of them each clause would have to say that it keeps every list.
#![tactic(auto)]

ghost use Rattle.law.specs.Promise.{Promise};
ghost use Rattle.matrix_shape.specs.Shape.{lists};
ghost use Rattle.gradient_doors.specs.Solving as solving;
ghost use Rattle.gradient_doors.specs.Updating as updating;

use gradient_definition::{Outcome, Settings};
use gradient_refusals::refuse;
use law::refusal::Refusal;
use matrix_shape::pattern::Pattern;

pub mod front;

// The preconditioner of a matrix: each diagonal block's inverse, or the identity where an entry of that isn't finite.
#[tactic(auto, unfolding(law::specs::Promise::outcome))]
pub fn update_preconditioner(
    pattern: &Pattern,
    blocks: &[f32],
    preconditioner: &mut [f32],
) -> Result<(), Refusal>
    ensures { Promise updating.door (updating.given (lists pattern.now) blocks.now preconditioner.old)
        (updating.left result preconditioner.new) }
{
    refuse::updating(pattern, blocks, preconditioner)?;
    gradient_preconditioner::inner::update_preconditioner(pattern, blocks, preconditioner);
    Ok(())
}

// A x = b from the guess in x, with the preconditioner as it stands.
#[tactic(auto, unfolding(law::specs::Promise::outcome))]
pub fn solve(
    pattern: &Pattern,
    blocks: &[f32],
    preconditioner: &[f32],
    b: &[f32],
    settings: Settings,
    x: &mut [f32],
    residual: &mut [f32],
    direction: &mut [f32],
    a_direction: &mut [f32],
    z: &mut [f32],
) -> Result<Outcome, Refusal>
    ensures { Promise solving.door
        (solving.given (lists pattern.now) blocks.now preconditioner.now b.now settings.tolerance settings.max_iterations
        x.old residual.old direction.old a_direction.old z.old)
        (solving.left result x.new residual.new direction.new a_direction.new z.new) }
{
    refuse::solving(
        pattern,
        blocks,
        preconditioner,
        b,
        settings,
        x,
        residual,
        direction,
        a_direction,
        z,
    )?;
    Ok(front::solve(
        pattern,
        blocks,
        preconditioner,
        b,
        settings,
        x,
        residual,
        direction,
        a_direction,
        z,
    ))
}
