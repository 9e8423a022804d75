// The number of an answer.
ghost use Rattle.std.specs.Prelude.{◌≡◌};
ghost use Rattle.abi_answers.specs.Numbers.{answered};

use law::refusal::Refusal;

// A refusal's number, or 0, whatever the call does.
pub fn number<T>(answer: &Result<T, Refusal>) -> u8
    ensures { result ≡ answered answer.now }
{
    match answer {
        Ok(_) => 0,
        Err(refusal) => u8::from(*refusal),
    }
}
