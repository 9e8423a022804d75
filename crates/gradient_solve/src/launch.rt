// The start of a solve, over lent vectors of exactly 2n floats. What these require, the doors have tested.
// Matrix and Sized stay clauses: docs/HOUSE.md names these calls, and a type that held the facts would ask more of their callers.
// Lists lent by &mut come one by one: of a struct of them each clause would have to say that it keeps every list.
ghost use Rattle.std.specs.Prelude.{◌≡◌, ◌*◌, ◌≤◌, length};
ghost use Rattle.gradient_definition.specs.Vectors.{Matrix, product, preconditioned};
ghost use Rattle.gradient_definition.specs.Solve.{Sized, ended, fresh_of, launched, started};

use gradient_definition::Outcome;
use gradient_finish::finish::finish;
use gradient_run::inner::run;
use matrix_shape::pattern::Pattern;
use vectors::inner::dot_all;

// The residual b - A x, worked out afresh.
pub fn fresh(pattern: &Pattern, blocks: &[f32], b: &[f32], x: &[f32], residual: &mut [f32])
    requires matrix { Matrix pattern.now.n pattern.now.row_offsets.now pattern.now.cols.now blocks.now }
    requires n_in_bounds { (2 * pattern.now.n ≤ length b.now) × (2 * pattern.now.n ≤ length x.now) × (length residual.old ≡ 2 * pattern.now.n) }
    ensures { residual.new ≡ fresh_of pattern.now.n
        (product pattern.now.n pattern.now.row_offsets.now pattern.now.cols.now blocks.now)
        b.now x.now }
{
    matrix_values::inner::mul(pattern, blocks, x, residual);
    vectors::inner::lack(pattern.n, b, residual);
}

// From a residual of squared length norm.
pub fn launch(
    pattern: &Pattern,
    blocks: &[f32],
    preconditioner: &[f32],
    b: &[f32],
    threshold: f32,
    limit: usize,
    norm: f32,
    x: &mut [f32],
    residual: &mut [f32],
    direction: &mut [f32],
    a_direction: &mut [f32],
    z: &mut [f32],
) -> Outcome
    requires matrix { Matrix pattern.now.n pattern.now.row_offsets.now pattern.now.cols.now blocks.now }
    requires sized { Sized pattern.now.n preconditioner.now x.old residual.old direction.old a_direction.old z.old }
    requires n_in_bounds { 2 * pattern.now.n ≤ length b.now }
    ensures { ended result x.new ≡ launched pattern.now.n
        (product pattern.now.n pattern.now.row_offsets.now pattern.now.cols.now blocks.now)
        (preconditioned pattern.now.n preconditioner.now) b.now threshold limit norm x.old residual.old }
{
    let n = pattern.n;
    vectors::multiples::precondition(n, preconditioner, residual, z);
    vectors::inner::copy(n, z, direction);
    let rz = dot_all(n, residual, z);
    let o = run(
        pattern,
        blocks,
        preconditioner,
        threshold,
        limit,
        norm,
        rz,
        x,
        residual,
        direction,
        a_direction,
        z,
    );
    finish(pattern, blocks, b, o, x, residual)
}

// From a b whose squared length isn't 0.
#[tactic(auto, unfolding(gradient_definition::specs::Solve::started))]
pub fn start(
    pattern: &Pattern,
    blocks: &[f32],
    preconditioner: &[f32],
    b: &[f32],
    threshold: f32,
    limit: usize,
    x: &mut [f32],
    residual: &mut [f32],
    direction: &mut [f32],
    a_direction: &mut [f32],
    z: &mut [f32],
) -> Outcome
    requires matrix { Matrix pattern.now.n pattern.now.row_offsets.now pattern.now.cols.now blocks.now }
    requires sized { Sized pattern.now.n preconditioner.now x.old residual.old direction.old a_direction.old z.old }
    requires n_in_bounds { 2 * pattern.now.n ≤ length b.now }
    ensures { ended result x.new ≡ started pattern.now.n
        (product pattern.now.n pattern.now.row_offsets.now pattern.now.cols.now blocks.now)
        (preconditioned pattern.now.n preconditioner.now) b.now threshold limit x.old }
{
    fresh(pattern, blocks, b, x, residual);
    let norm = dot_all(pattern.n, residual, residual);
    if norm <= threshold {
        return Outcome::Near {
            count: 0,
            residual: norm,
        };
    }
    launch(
        pattern,
        blocks,
        preconditioner,
        b,
        threshold,
        limit,
        norm,
        x,
        residual,
        direction,
        a_direction,
        z,
    )
}
