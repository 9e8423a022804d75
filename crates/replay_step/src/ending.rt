// How a step solve and a response came about, as an answer line tells it: behind the lists, 0 for the direct route, the outcome's number, or 6
// where a response asked for no solve, with the count; and the floats, a response's gain first. Nothing of either in a refusal.
ghost use Rattle.std.specs.Prelude.{◌≤◌};
ghost use Rattle.replay_tokens.specs.Room.{room};

use gradient_definition::Outcome;
use law::refusal::Refusal;
use replay_gradient::ending::{carried, floats, none, numbers, outcome, pair};
use replay_tokens::print::{Room, float, whole};
use step_response::Responded;
use step_solve::Stepped;

fn directly(out: &mut Room, at: usize) -> usize
    requires { at ≤ room }
    ensures { result ≤ room }
{
    let to = pair(0, 0, out, at);
    whole(0, out, to)
}

pub fn of_step(answer: Result<Stepped, Refusal>, out: &mut Room, at: usize) -> usize
    requires { at ≤ room }
    ensures { result ≤ room }
{
    match answer {
        Err(_) => none(out, at),
        Ok(Stepped::Direct) => directly(out, at),
        Ok(Stepped::Iterated(o)) => outcome(o, out, at),
    }
}

fn gained(how: u64, gain: f32, out: &mut Room, at: usize) -> usize
    requires { at ≤ room }
    ensures { result ≤ room }
{
    let mut to = pair(how, 0, out, at);
    to = whole(1, out, to);
    float(gain, out, to)
}

fn iterated(gain: f32, o: Outcome, out: &mut Room, at: usize) -> usize
    requires { at ≤ room }
    ensures { result ≤ room }
{
    let mut to = numbers(o, out, at);
    to = whole(carried(o) + 1, out, to);
    to = float(gain, out, to);
    floats(o, out, to)
}

pub fn of_response(answer: Result<Responded, Refusal>, out: &mut Room, at: usize) -> usize
    requires { at ≤ room }
    ensures { result ≤ room }
{
    match answer {
        Err(_) => none(out, at),
        Ok(Responded::Nothing) => gained(6, 0.0, out, at),
        Ok(Responded::Direct { gain }) => gained(0, gain, out, at),
        Ok(Responded::Iterated { gain, how }) => iterated(gain, how, out, at),
    }
}
