// What a run came to, and its x rescaled.
// Matrix stays a clause: docs/HOUSE.md names these calls, and a type that held the fact would ask more of their callers.
ghost use Rattle.std.specs.Prelude.{◌≡◌, ◌*◌, ◌≤◌, length};
ghost use Rattle.gradient_definition.specs.Vectors.{Matrix, product};
ghost use Rattle.gradient_definition.specs.Solve.{ended, rescaled, finished};

use gradient_definition::Outcome;
use matrix_shape::pattern::Pattern;
use vectors::inner::dot_all;

// x scaled by the minimizer of its energy, clamped into 0..1, where NaN and -0.0 stay. A denominator that is a NaN goes on.
pub fn rescale(pattern: &Pattern, blocks: &[f32], b: &[f32], x: &mut [f32], ax: &mut [f32])
    requires matrix { Matrix pattern.now.n pattern.now.row_offsets.now pattern.now.cols.now blocks.now }
    requires n_in_bounds { (2 * pattern.now.n ≤ length b.now) × (length x.old ≡ 2 * pattern.now.n) × (length ax.old ≡ 2 * pattern.now.n) }
    ensures { x.new ≡ rescaled pattern.now.n
        (product pattern.now.n pattern.now.row_offsets.now pattern.now.cols.now blocks.now)
        b.now x.old }
{
    let n = pattern.n;
    matrix_values::inner::mul(pattern, blocks, x, ax);
    let numerator = dot_all(n, b, x);
    let denominator = dot_all(n, x, ax);
    if denominator <= 0.0 {
        vectors::inner::clear(n, x);
        return;
    }
    let alpha = (numerator / denominator).clamp(0.0, 1.0);
    if alpha != 1.0 {
        vectors::multiples::scale_all(n, alpha, x);
    }
}

// What a run came to, x rescaled after Curvature and Limit alone. The residual's buffer is free by then.
#[tactic(auto, unfolding(gradient_definition::specs::Solve::finished))]
pub fn finish(
    pattern: &Pattern,
    blocks: &[f32],
    b: &[f32],
    o: Outcome,
    x: &mut [f32],
    residual: &mut [f32],
) -> Outcome
    requires matrix { Matrix pattern.now.n pattern.now.row_offsets.now pattern.now.cols.now blocks.now }
    requires n_in_bounds { (2 * pattern.now.n ≤ length b.now) × (length x.old ≡ 2 * pattern.now.n) × (length residual.old ≡ 2 * pattern.now.n) }
    ensures { ended result x.new ≡ finished pattern.now.n
        (product pattern.now.n pattern.now.row_offsets.now pattern.now.cols.now blocks.now)
        b.now (ended o x.old) }
{
    match o {
        Outcome::Curvature { .. } | Outcome::Limit { .. } => rescale(
            pattern, blocks, b, x, residual,
        ),
        Outcome::Zero { .. } | Outcome::Near { .. } | Outcome::Converged { .. } => {}
    }
    o
}
