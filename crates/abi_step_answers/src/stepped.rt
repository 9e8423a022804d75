// The four places that say how a step solve ended.
ghost use Rattle.std.specs.Prelude.{◌≡◌};
ghost use Rattle.abi_step_answers.specs.Steps.{bare_of, places_of};

use abi_answers::ended::Places;
use law::refusal::Refusal;
use step_solve::Stepped;

// An ending without a count and floats.
pub fn bare(how: u32) -> Places
    ensures { result ≡ bare_of how }
{
    Places {
        how,
        count: 0,
        residual_squared: 0.0,
        denominator: 0.0,
    }
}

// What the places hold after an answer; a refusal leaves them.
pub fn after(before: Places, answer: Result<Stepped, Refusal>) -> Places
    ensures { result ≡ places_of answer before }
{
    match answer {
        Err(_) => before,
        Ok(Stepped::Direct) => bare(0),
        Ok(Stepped::Iterated(outcome)) => Places::from(outcome),
    }
}
