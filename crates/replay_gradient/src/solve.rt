// A solve by conjugate gradients. The lists are lent by twos and threes: what a function knows makes each of its steps dear to check.
ghost use Rattle.std.specs.Prelude.{◌≤◌, IfSome};
ghost use Rattle.replay_tokens.specs.Room.{room};

use crate::ending::{show, told};
use gradient_definition::{Outcome, Settings};
use law::refusal::Refusal;
use law::wide;
use replay_tokens::lent::pattern;
use replay_tokens::list::{LONGEST, WORDS, as_reals, filled, lent_reals, plain, reals};
use replay_tokens::print::Room;
use replay_tokens::verdict::first_words;
use replay_tokens::word::real;

// The call, with what the line gives it.
fn made(
    w: &[u32],
    line: &[f32],
    x: &mut [f32],
    residual: &mut [f32],
    direction: &mut [f32],
    a_direction: &mut [f32],
    z: &mut [f32],
) -> Result<Outcome, Refusal> {
    let settings = Settings {
        tolerance: real(plain(w, 2)),
        max_iterations: wide(plain(w, 1)),
    };
    gradient_doors::solve(
        &pattern(w, 3),
        reals(w, line, 3, 3),
        reals(w, line, 3, 4),
        reals(w, line, 3, 5),
        settings,
        x,
        residual,
        direction,
        a_direction,
        z,
    )
}

fn call(
    w: &[u32],
    line: &[f32],
    x: &mut [f32],
    residual: &mut [f32],
    direction: &mut [f32],
    a_direction: &mut [f32],
    z: &mut [f32],
    out: &mut Room,
) -> usize
    ensures { result ≤ room }
{
    let answer = made(w, line, x, residual, direction, a_direction, z);
    let at = first_words(&answer, out);
    let to = show(x, residual, direction, a_direction, z, out, at);
    told(answer, out, to)
}

// Each of these lends the next lists of the line and hands on all that is lent.
fn turned(w: &[u32], line: &[f32], x: &mut [f32], residual: &mut [f32], out: &mut Room) -> usize
    ensures { result ≤ room }
{
    let mut direction = [0f32; LONGEST];
    let mut a_direction = [0f32; LONGEST];
    let mut z = [0f32; LONGEST];
    let i = lent_reals(w, 3, 8, &mut direction);
    let j = lent_reals(w, 3, 9, &mut a_direction);
    let k = lent_reals(w, 3, 10, &mut z);
    call(w, line, x, residual, i, j, k, out)
}

pub fn conjugate_gradient(w: &[u32], out: &mut Room) -> Option<usize>
    ensures { IfSome result (λ at. at ≤ room) }
{
    if !filled(w, 3, 11) {
        return None;
    }
    let mut line = [0f32; WORDS];
    let mut x = [0f32; LONGEST];
    let mut residual = [0f32; LONGEST];
    let i = as_reals(w, &mut line);
    let j = lent_reals(w, 3, 6, &mut x);
    let k = lent_reals(w, 3, 7, &mut residual);
    Some(turned(w, i, j, k, out))
}
