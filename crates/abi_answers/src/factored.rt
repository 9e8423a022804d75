// The three places that say how a factorization ended. `how` is a number: it is the C interface.
ghost use Rattle.std.specs.Prelude.{◌≡◌};
ghost use Rattle.abi_answers.specs.Direct.{places_of};

use factor_make::Failed;
use law::refusal::Refusal;

// 0 for a whole factor and 1 for a failure, with its row and pivot.
#[derive(Clone, Copy)]
pub struct Factor {
    pub how: u32,
    pub row: usize,
    pub pivot: f32,
}

impl Factor {
    // What the places hold after an answer. Only a failure writes row and pivot; a refusal leaves all.
    pub fn after(self, answer: Result<Result<(), Failed>, Refusal>) -> Factor
        ensures { result ≡ places_of answer self }
    {
        match answer {
            Err(_) => self,
            Ok(Ok(())) => Factor { how: 0, ..self },
            Ok(Err(Failed { row, pivot })) => Factor { how: 1, row, pivot },
        }
    }
}
