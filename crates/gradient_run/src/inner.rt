// The run of turns, over lent vectors of exactly 2n floats. What it requires, the doors have tested.
// Matrix and Sized stay clauses: docs/HOUSE.md names this call, and a type that held the facts would ask more of its callers.
// Lists lent by &mut come one by one: of a struct of them each clause would have to say that it keeps every list.
ghost use Rattle.std.specs.Prelude.{◌≡◌};
ghost use Rattle.gradient_definition.specs.Vectors.{Matrix, product, preconditioned};
ghost use Rattle.gradient_definition.specs.Solve.{Sized, state, ended, run};

use gradient_definition::{Outcome, Turned};
use gradient_turn::inner::turn;
use matrix_shape::pattern::Pattern;

// The turns from a residual of squared length norm0, at most `limit` of them.
pub fn run(
    pattern: &Pattern,
    blocks: &[f32],
    preconditioner: &[f32],
    threshold: f32,
    limit: usize,
    norm0: f32,
    rz0: f32,
    x: &mut [f32],
    residual: &mut [f32],
    direction: &mut [f32],
    a_direction: &mut [f32],
    z: &mut [f32],
) -> Outcome
    requires matrix { Matrix pattern.now.n pattern.now.row_offsets.now pattern.now.cols.now blocks.now }
    requires sized { Sized pattern.now.n preconditioner.now x.old residual.old direction.old a_direction.old z.old }
    ensures { ended result x.new ≡ run pattern.now.n
        (product pattern.now.n pattern.now.row_offsets.now pattern.now.cols.now blocks.now)
        (preconditioned pattern.now.n preconditioner.now) threshold limit 0 norm0
        (state x.old residual.old direction.old rz0) }
{
    let mut norm = norm0;
    let mut rz = rz0;
    for count in 0..limit {
        let turned = turn(
            pattern,
            blocks,
            preconditioner,
            threshold,
            rz,
            x,
            residual,
            direction,
            a_direction,
            z,
        );
        match turned {
            Turned::Bent(denominator) => {
                return Outcome::Curvature {
                    count,
                    residual: norm,
                    denominator,
                };
            }
            Turned::Done(last) => {
                return Outcome::Converged {
                    count: count + 1,
                    residual: last,
                };
            }
            Turned::Onward {
                norm: next,
                rz: more,
            } => {
                norm = next;
                rz = more;
            }
        }
    }
    Outcome::Limit {
        count: limit,
        residual: norm,
    }
}
