// The four places that say how a solve ended. `how` is a number: it is the C interface.
ghost use Rattle.std.specs.Prelude.{◌≡◌};
ghost use Rattle.abi_answers.specs.Told.{places_of, told_of};

use gradient_definition::Outcome;
use law::refusal::Refusal;

// The outcome's number, its count, the residual's squared length and the denominator; 0 and +0.0 where it carries none.
#[derive(Clone, Copy)]
pub struct Places {
    pub how: u32,
    pub count: usize,
    pub residual_squared: f32,
    pub denominator: f32,
}

impl From<Outcome> for Places {
    ghost from_gives = { λ o p. p ≡ told_of o };

    fn from(outcome: Outcome) -> Places {
        match outcome {
            Outcome::Zero { count } => Places {
                how: 1,
                count,
                residual_squared: 0.0,
                denominator: 0.0,
            },
            Outcome::Near { count, residual } => Places {
                how: 2,
                count,
                residual_squared: residual,
                denominator: 0.0,
            },
            Outcome::Converged { count, residual } => Places {
                how: 3,
                count,
                residual_squared: residual,
                denominator: 0.0,
            },
            Outcome::Curvature {
                count,
                residual,
                denominator,
            } => Places {
                how: 4,
                count,
                residual_squared: residual,
                denominator,
            },
            Outcome::Limit { count, residual } => Places {
                how: 5,
                count,
                residual_squared: residual,
                denominator: 0.0,
            },
        }
    }
}

impl Places {
    // What the places hold after an answer; a refusal leaves them.
    pub fn after(self, answer: Result<Outcome, Refusal>) -> Places
        ensures { result ≡ places_of answer self }
    {
        match answer {
            Err(_) => self,
            Ok(outcome) => Places::from(outcome),
        }
    }
}
