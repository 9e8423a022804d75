// The six places that say how many of computing's solves ended in each way.
ghost use Rattle.std.specs.Prelude.{◌≡◌};
ghost use Rattle.columns_make.specs.Said.{computed_said};
ghost use Rattle.abi_columns_answers.specs.Computes.{wholes_by};

use columns_make::Ended;
use law::refusal::Refusal;

// What the places hold after an answer; a refusal leaves them.
pub fn after(before: [u32; 6], answer: Result<Ended, Refusal>) -> [u32; 6]
    ensures { result ≡ wholes_by (computed_said answer) before }
{
    match answer {
        Err(_) => before,
        Ok(e) => [e.direct, e.zero, e.near, e.converged, e.curvature, e.limit],
    }
}
