// How the columns' calls came about, as an answer line tells it: the first words; behind the lists how solves ended, or one number and the
// floats. Nothing of these in a refusal.
ghost use Rattle.std.specs.Prelude.{◌≤◌};
ghost use Rattle.replay_tokens.specs.Room.{room};

use columns_combine::Combined;
use columns_make::Ended;
use law::refusal::Refusal;
use plane::Block;
use replay_gradient::ending::none;
use replay_tokens::print::{Room, float_list, whole, whole_list};

pub fn of_computed(answer: Result<Ended, Refusal>, out: &mut Room, at: usize) -> usize
    requires { at ≤ room }
    ensures { result ≤ room }
{
    match answer {
        Err(_) => whole(0, out, at),
        Ok(
            Ended {
                direct,
                zero,
                near,
                converged,
                curvature,
                limit,
            },
        ) => {
            let list = [direct, zero, near, converged, curvature, limit];
            whole_list(&list, out, at)
        }
    }
}

// The number alone in a list, and the floats.
fn told(how: u64, floats: &[f32], out: &mut Room, at: usize) -> usize
    requires { at ≤ room }
    ensures { result ≤ room }
{
    let mut to = whole(1, out, at);
    to = whole(how, out, to);
    float_list(floats, out, to)
}

// Not loaded: its number, and no float.
fn missing(out: &mut Room, at: usize) -> usize
    requires { at ≤ room }
    ensures { result ≤ room }
{
    let mut to = whole(1, out, at);
    to = whole(7, out, to);
    whole(0, out, to)
}

pub fn of_combined(answer: Result<Combined, Refusal>, out: &mut Room, at: usize) -> usize
    requires { at ≤ room }
    ensures { result ≤ room }
{
    match answer {
        Err(_) => none(out, at),
        Ok(Combined::NotLoaded) => missing(out, at),
        Ok(Combined::Nothing) => told(6, &[0.0], out, at),
        Ok(Combined::Gain(gain)) => told(0, &[gain], out, at),
    }
}

pub fn of_block(answer: Result<Option<Block>, Refusal>, out: &mut Room, at: usize) -> usize
    requires { at ≤ room }
    ensures { result ≤ room }
{
    match answer {
        Err(_) => none(out, at),
        Ok(None) => missing(out, at),
        Ok(Some(m)) => {
            let block = [m[0][0], m[0][1], m[1][0], m[1][1]];
            told(0, &block, out, at)
        }
    }
}
