// The place for how many particles are loaded after clearing and loading.
ghost use Rattle.std.specs.Prelude.{◌≡◌};
ghost use Rattle.abi_columns_answers.specs.Loads.{loaded_after};

use law::refusal::Refusal;

// What the place holds after an answer; a refusal leaves it.
pub fn after(before: usize, answer: Result<usize, Refusal>) -> usize
    ensures { result ≡ loaded_after answer before }
{
    answer.unwrap_or(before)
}
