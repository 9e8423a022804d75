// The solve, over lent vectors of exactly 2n floats. What these require, the doors have tested.
// Matrix and Sized stay clauses: docs/HOUSE.md names these calls, and a type that held the facts would ask more of their callers.
// Lists lent by &mut come one by one: of a struct of them each clause would have to say that it keeps every list.
ghost use Rattle.std.specs.Prelude.{◌≡◌, ◌*◌, ◌≤◌, length};
ghost use Rattle.gradient_definition.specs.Vectors.{Matrix, product, preconditioned, zeros};
ghost use Rattle.gradient_definition.specs.Solve.{Sized, ended, solved};

use crate::launch::start;
use gradient_definition::{Outcome, Settings};
use matrix_shape::pattern::Pattern;
use vectors::inner::dot_all;

// The solve, without care for what it leaves in the work buffers.
#[tactic(auto, unfolding(gradient_definition::specs::Solve::solved))]
pub fn attempt(
    pattern: &Pattern,
    blocks: &[f32],
    preconditioner: &[f32],
    b: &[f32],
    settings: Settings,
    x: &mut [f32],
    residual: &mut [f32],
    direction: &mut [f32],
    a_direction: &mut [f32],
    z: &mut [f32],
) -> Outcome
    requires matrix { Matrix pattern.now.n pattern.now.row_offsets.now pattern.now.cols.now blocks.now }
    requires sized { Sized pattern.now.n preconditioner.now x.old residual.old direction.old a_direction.old z.old }
    requires n_in_bounds { 2 * pattern.now.n ≤ length b.now }
    ensures { ended result x.new ≡ solved pattern.now.n
        (product pattern.now.n pattern.now.row_offsets.now pattern.now.cols.now blocks.now)
        (preconditioned pattern.now.n preconditioner.now) b.now settings.tolerance settings.max_iterations x.old }
{
    let b2 = dot_all(pattern.n, b, b);
    if b2 == 0.0 {
        vectors::inner::clear(pattern.n, x);
        return Outcome::Zero { count: 0 };
    }
    let threshold = settings.tolerance * settings.tolerance * b2;
    start(
        pattern,
        blocks,
        preconditioner,
        b,
        threshold,
        settings.max_iterations,
        x,
        residual,
        direction,
        a_direction,
        z,
    )
}

// The same, with the work buffers zero afterwards.
pub fn solve(
    pattern: &Pattern,
    blocks: &[f32],
    preconditioner: &[f32],
    b: &[f32],
    settings: Settings,
    x: &mut [f32],
    residual: &mut [f32],
    direction: &mut [f32],
    a_direction: &mut [f32],
    z: &mut [f32],
) -> Outcome
    requires matrix { Matrix pattern.now.n pattern.now.row_offsets.now pattern.now.cols.now blocks.now }
    requires sized { Sized pattern.now.n preconditioner.now x.old residual.old direction.old a_direction.old z.old }
    requires n_in_bounds { 2 * pattern.now.n ≤ length b.now }
    ensures { (ended result x.new ≡ solved pattern.now.n
        (product pattern.now.n pattern.now.row_offsets.now pattern.now.cols.now blocks.now)
        (preconditioned pattern.now.n preconditioner.now) b.now settings.tolerance settings.max_iterations x.old)
        × (residual.new ≡ zeros pattern.now.n) × (direction.new ≡ zeros pattern.now.n)
        × (a_direction.new ≡ zeros pattern.now.n) × (z.new ≡ zeros pattern.now.n) }
{
    let n = pattern.n;
    let o = attempt(
        pattern,
        blocks,
        preconditioner,
        b,
        settings,
        x,
        residual,
        direction,
        a_direction,
        z,
    );
    vectors::inner::clear(n, residual);
    vectors::inner::clear(n, direction);
    vectors::inner::clear(n, a_direction);
    vectors::inner::clear(n, z);
    o
}
