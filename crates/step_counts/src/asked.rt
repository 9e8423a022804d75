// What a call is counted as.
ghost use Rattle.std.specs.Prelude.{◌≡◌};
ghost use Rattle.step_counts.specs.Counting.{kind_of, asked_of, asked_by};

use gradient_definition::Outcome;
use law::refusal::Refusal;
use step_response::Responded;
use step_solve::Stepped;
use step_tally::Kind;

// A function, and no conversion: neither type is of this crate.
fn kind_of(o: Outcome) -> Kind
    ensures { result ≡ kind_of o }
{
    match o {
        Outcome::Zero { .. } => Kind::Zero,
        Outcome::Near { .. } => Kind::Near,
        Outcome::Converged { .. } => Kind::Converged,
        Outcome::Curvature { .. } => Kind::Curvature,
        Outcome::Limit { .. } => Kind::Limit,
    }
}

pub fn by_step(answer: Result<Stepped, Refusal>) -> Option<Kind>
    ensures { result ≡ asked_of answer }
{
    Some(match answer {
        Err(_) => Kind::Refused,
        Ok(Stepped::Direct) => Kind::Direct,
        Ok(Stepped::Iterated(o)) => kind_of(o),
    })
}

pub fn by_response(answer: Result<Responded, Refusal>) -> Option<Kind>
    ensures { result ≡ asked_by answer }
{
    match answer {
        Err(_) => Some(Kind::Refused),
        Ok(Responded::Nothing) => None,
        Ok(Responded::Direct { .. }) => Some(Kind::Direct),
        Ok(Responded::Iterated { how, .. }) => Some(kind_of(how)),
    }
}
