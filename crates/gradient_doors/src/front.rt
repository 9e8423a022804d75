// The parts of the lent vectors that a solve needs are lent on.
// Lists lent by &mut come one by one: of a struct of them each clause would have to say that it keeps every list.
ghost use Rattle.std.specs.Prelude.{◌≡◌, Ok};
ghost use Rattle.matrix_shape.specs.Shape.{lists};
ghost use Rattle.gradient_doors.specs.Solving.{given, left, Ready, work};

use gradient_definition::{Outcome, Settings};
use matrix_shape::pattern::Pattern;

#[tactic(auto, using(crate::specs::Solving::parts_sized))]
pub fn solve(
    pattern: &Pattern,
    blocks: &[f32],
    preconditioner: &[f32],
    b: &[f32],
    settings: Settings,
    x: &mut [f32],
    residual: &mut [f32],
    direction: &mut [f32],
    a_direction: &mut [f32],
    z: &mut [f32],
) -> Outcome
    requires { Ready
        (given (lists pattern.now) blocks.now preconditioner.now b.now settings.tolerance settings.max_iterations x.old
        residual.old direction.old a_direction.old z.old) }
    ensures { left (Ok result) x.new residual.new direction.new a_direction.new z.new ≡ work
        (given (lists pattern.now) blocks.now preconditioner.now b.now settings.tolerance settings.max_iterations x.old
        residual.old direction.old a_direction.old z.old) }
{
    let m = 2 * pattern.n;
    gradient_solve::inner::solve(
        pattern,
        blocks,
        preconditioner,
        b,
        settings,
        &mut x[..m],
        &mut residual[..m],
        &mut direction[..m],
        &mut a_direction[..m],
        &mut z[..m],
    )
}
