// The five places that a response fills: its gain, and how its step solve ended, or by 6 that none was asked for.
ghost use Rattle.std.specs.Prelude.{◌≡◌};
ghost use Rattle.abi_step_answers.specs.Responses.{gained_of};

use crate::stepped::bare;
use abi_answers::ended::Places;
use law::refusal::Refusal;
use step_response::Responded;

#[derive(Clone, Copy)]
pub struct Gained {
    pub gain: f32,
    pub told: Places,
}

impl Gained {
    // What the places hold after an answer; a refusal leaves them.
    pub fn after(self, answer: Result<Responded, Refusal>) -> Gained
        ensures { result ≡ gained_of answer self }
    {
        match answer {
            Err(_) => self,
            Ok(Responded::Nothing) => Gained {
                gain: 0.0,
                told: bare(6),
            },
            Ok(Responded::Direct { gain }) => Gained {
                gain,
                told: bare(0),
            },
            Ok(Responded::Iterated { gain, how }) => Gained {
                gain,
                told: Places::from(how),
            },
        }
    }
}
