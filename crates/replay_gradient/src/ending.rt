// How a solve ended, as an answer line tells it: behind the lists, the outcome's number and count, and its floats; nothing of either in a refusal.
ghost use Rattle.std.specs.Prelude.{◌≤◌};
ghost use Rattle.replay_tokens.specs.Room.{room};

use gradient_definition::Outcome;
use law::refusal::Refusal;
use replay_tokens::print::{Room, float, float_list, whole};

// The last five lists that a solve may change, as they stand afterwards.
pub fn show(
    first: &[f32],
    residual: &[f32],
    direction: &[f32],
    a_direction: &[f32],
    z: &[f32],
    out: &mut Room,
    at: usize,
) -> usize
    requires { at ≤ room }
    ensures { result ≤ room }
{
    let mut to = float_list(first, out, at);
    to = float_list(residual, out, to);
    to = float_list(direction, out, to);
    to = float_list(a_direction, out, to);
    float_list(z, out, to)
}

pub fn pair(how: u64, count: usize, out: &mut Room, at: usize) -> usize
    requires { at ≤ room }
    ensures { result ≤ room }
{
    let mut to = whole(2, out, at);
    to = whole(how, out, to);
    whole(count as u64, out, to)
}

// The outcome's number and count.
pub fn numbers(o: Outcome, out: &mut Room, at: usize) -> usize
    requires { at ≤ room }
    ensures { result ≤ room }
{
    match o {
        Outcome::Zero { count } => pair(1, count, out, at),
        Outcome::Near { count, .. } => pair(2, count, out, at),
        Outcome::Converged { count, .. } => pair(3, count, out, at),
        Outcome::Curvature { count, .. } => pair(4, count, out, at),
        Outcome::Limit { count, .. } => pair(5, count, out, at),
    }
}

// How many floats it carries.
pub fn carried(o: Outcome) -> u64
    ensures { result ≤ 2 }
{
    match o {
        Outcome::Zero { .. } => 0,
        Outcome::Near { .. } | Outcome::Converged { .. } | Outcome::Limit { .. } => 1,
        Outcome::Curvature { .. } => 2,
    }
}

fn two(a: f32, b: f32, out: &mut Room, at: usize) -> usize
    requires { at ≤ room }
    ensures { result ≤ room }
{
    let to = float(a, out, at);
    float(b, out, to)
}

pub fn floats(o: Outcome, out: &mut Room, at: usize) -> usize
    requires { at ≤ room }
    ensures { result ≤ room }
{
    match o {
        Outcome::Zero { .. } => at,
        Outcome::Near { residual, .. }
        | Outcome::Converged { residual, .. }
        | Outcome::Limit { residual, .. } => float(residual, out, at),
        Outcome::Curvature {
            residual,
            denominator,
            ..
        } => two(residual, denominator, out, at),
    }
}

pub fn none(out: &mut Room, at: usize) -> usize
    requires { at ≤ room }
    ensures { result ≤ room }
{
    let to = whole(0, out, at);
    whole(0, out, to)
}

pub fn outcome(o: Outcome, out: &mut Room, at: usize) -> usize
    requires { at ≤ room }
    ensures { result ≤ room }
{
    let mut to = numbers(o, out, at);
    to = whole(carried(o), out, to);
    floats(o, out, to)
}

pub fn told(answer: Result<Outcome, Refusal>, out: &mut Room, at: usize) -> usize
    requires { at ≤ room }
    ensures { result ≤ room }
{
    match answer {
        Err(_) => none(out, at),
        Ok(o) => outcome(o, out, at),
    }
}
