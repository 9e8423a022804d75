// Why a call is refused (RULES.md § 3), by meaning and in the order of the numbers; `number` of specs/Number.antt has the same numbers for the definitions.
ghost use Rattle.std.specs.Prelude.{◌≡◌, ◌∷◌, []};
ghost use Rattle.law.specs.Number.{number};
ghost use Rattle.law.specs.Refusal.{unless, verdict};

use std::fmt;

#[derive(Clone, Copy, Debug, PartialEq, Eq)]
pub enum Refusal {
    // more than 1,024 particles
    TooManyParticles = 1,
    // more than 4,096 pairs or 16 response entries, or one more loaded particle than 16
    TooManyEntries = 2,
    // a lent buffer is shorter than the call needs
    ShortBuffer = 3,
    // a pair of different numbers has one at n or above; or a row or particle asked for is
    OutOfRange = 4,
    // the pattern is not well formed
    BadPattern = 5,
    // the plan does not fit, or a table of columns is none
    BadPlan = 6,
    // the envelope is longer than the limit
    LongEnvelope = 7,
    // tolerance or iteration limit
    BadSettings = 8,
    // the program's text
    BadText = 9,
}

// The number over the C interface and in what the programs print.
impl From<Refusal> for u8 {
    ghost from_gives = { λ refusal n. n ≡ number refusal };

    fn from(refusal: Refusal) -> u8 {
        refusal as u8
    }
}

// One test of a call: as a rule the next line of its list.
#[tactic(auto, unfolding(crate::specs::Refusal::verdict))]
pub fn ensure(ok: bool, refusal: Refusal) -> Result<(), Refusal>
    ensures { result ≡ verdict (unless refusal ok ∷ []) }
{
    if ok { Ok(()) } else { Err(refusal) }
}
