// One turn, over lent vectors of exactly 2n floats. What it requires, the doors have tested.
// Matrix and Sized stay clauses: docs/HOUSE.md names this call, and a type that held the facts would ask more of its callers.
// Lists lent by &mut come one by one: of a struct of them each clause would have to say that it keeps every list.
ghost use Rattle.std.specs.Prelude.{◌≡◌};
ghost use Rattle.gradient_definition.specs.Vectors.{Matrix, product, preconditioned};
ghost use Rattle.gradient_definition.specs.Solve.{Sized, state, after, turn};

use gradient_definition::Turned;
use matrix_shape::pattern::Pattern;
use vectors::inner::dot_all;

pub fn turn(
    pattern: &Pattern,
    blocks: &[f32],
    preconditioner: &[f32],
    threshold: f32,
    rz: f32,
    x: &mut [f32],
    residual: &mut [f32],
    direction: &mut [f32],
    a_direction: &mut [f32],
    z: &mut [f32],
) -> Turned
    requires matrix { Matrix pattern.now.n pattern.now.row_offsets.now pattern.now.cols.now blocks.now }
    requires sized { Sized pattern.now.n preconditioner.now x.old residual.old direction.old a_direction.old z.old }
    ensures { after result x.new residual.new direction.new ≡ turn pattern.now.n
        (product pattern.now.n pattern.now.row_offsets.now pattern.now.cols.now blocks.now)
        (preconditioned pattern.now.n preconditioner.now) threshold
        (state x.old residual.old direction.old rz) }
{
    let n = pattern.n;
    matrix_values::inner::mul(pattern, blocks, direction, a_direction);
    let denominator = dot_all(n, direction, a_direction);
    if denominator > 0.0 {
        let alpha = rz / denominator;
        vectors::multiples::advance(n, alpha, direction, x);
        vectors::multiples::retreat(n, alpha, a_direction, residual);
        let norm = dot_all(n, residual, residual);
        if norm <= threshold {
            return Turned::Done(norm);
        }
        vectors::multiples::precondition(n, preconditioner, residual, z);
        let next = dot_all(n, residual, z);
        vectors::multiples::redirect(n, next / rz, z, direction);
        return Turned::Onward { norm, rz: next };
    }
    Turned::Bent(denominator)
}
