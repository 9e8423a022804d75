// The step's factor: the three places that say whether it is whole, or where it failed.
ghost use Rattle.std.specs.Prelude.{◌≡◌};
ghost use Rattle.abi_step_answers.specs.Marks.{places_of};

use abi_answers::factored::Factor;
use law::refusal::Refusal;
use step_solve::Marked;

// What the places hold after an answer. Only a failure writes row and pivot; a refusal leaves all.
pub fn after(before: Factor, answer: Result<Marked, Refusal>) -> Factor
    ensures { result ≡ places_of answer before }
{
    match answer {
        Err(_) => before,
        Ok(Marked::Direct) => Factor { how: 0, ..before },
        Ok(Marked::Failed { row, pivot }) => Factor { how: 1, row, pivot },
        Ok(Marked::Iterative) => Factor { how: 2, ..before },
    }
}
