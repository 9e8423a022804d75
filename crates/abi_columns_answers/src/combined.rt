// The two places that a combination fills: its gain, and which case it is: 0, 6 where no entry is left, 7 where a particle isn't loaded.
ghost use Rattle.std.specs.Prelude.{◌≡◌};
ghost use Rattle.abi_columns_answers.specs.Combines.{gained_of};

use columns_combine::Combined;
use law::refusal::Refusal;

#[derive(Clone, Copy)]
pub struct Gained {
    pub gain: f32,
    pub how: u32,
}

impl Gained {
    // What the places hold after an answer; a refusal leaves them.
    pub fn after(self, answer: Result<Combined, Refusal>) -> Gained
        ensures { result ≡ gained_of answer self }
    {
        match answer {
            Err(_) => self,
            Ok(Combined::NotLoaded) => Gained { gain: 0.0, how: 7 },
            Ok(Combined::Nothing) => Gained { gain: 0.0, how: 6 },
            Ok(Combined::Gain(gain)) => Gained { gain, how: 0 },
        }
    }
}
