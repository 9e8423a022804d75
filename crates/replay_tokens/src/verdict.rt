// The word and number that a call's answer begins with.
ghost use Rattle.std.specs.Prelude.{◌≤◌};
ghost use Rattle.replay_tokens.specs.Room.{room};

use crate::print::{Room, float, whole, word};
use law::refusal::Refusal;

pub fn refused(refusal: Refusal, out: &mut Room) -> usize
    ensures { result ≤ room }
{
    let at = word(b"refused", out, 0);
    whole(u64::from(u8::from(refusal)), out, at)
}

// Of an answer that tells no number, or tells it behind the lists.
pub fn first_words<T>(answer: &Result<T, Refusal>, out: &mut Room) -> usize
    ensures { result ≤ room }
{
    match answer {
        Err(refusal) => refused(*refusal, out),
        Ok(_) => word(b"done", out, 0),
    }
}

// Of one that is a count or a slot.
pub fn counted(answer: Result<u64, Refusal>, out: &mut Room) -> usize
    ensures { result ≤ room }
{
    match answer {
        Err(refusal) => refused(refusal, out),
        Ok(number) => done(number, out),
    }
}

pub fn done(number: u64, out: &mut Room) -> usize
    ensures { result ≤ room }
{
    let at = word(b"done", out, 0);
    whole(number, out, at)
}

// The row of a factor that failed, and its pivot.
pub fn failed(row: usize, pivot: f32, out: &mut Room) -> usize
    ensures { result ≤ room }
{
    let at = word(b"failed", out, 0);
    let to = whole(row as u64, out, at);
    float(pivot, out, to)
}
