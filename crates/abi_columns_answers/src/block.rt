// The five places that a particle's block fills: which case it is, 0, or 7 where the particle isn't loaded, and its four numbers.
ghost use Rattle.std.specs.Prelude.{◌≡◌};
ghost use Rattle.abi_columns_answers.specs.Blocks.{shown_of};

use law::refusal::Refusal;
use plane::Block;

#[derive(Clone, Copy)]
pub struct Shown {
    pub how: u32,
    pub block: [f32; 4],
}

impl Shown {
    // What the places hold after an answer; a refusal leaves them.
    pub fn after(self, answer: Result<Option<Block>, Refusal>) -> Shown
        ensures { result ≡ shown_of answer self }
    {
        match answer {
            Err(_) => self,
            Ok(None) => Shown {
                how: 7,
                block: [0.0, 0.0, 0.0, 0.0],
            },
            Ok(Some(m)) => Shown {
                how: 0,
                block: [m[0][0], m[0][1], m[1][0], m[1][1]],
            },
        }
    }
}
