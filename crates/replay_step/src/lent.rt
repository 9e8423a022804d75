// The lists that a step solve and a response work in, lent to the one that a line asks for: by threes, since what a function knows makes
// each of its steps dear to check. From the scratch on, the lists of both lines are the same.
ghost use Rattle.std.specs.Prelude.{◌≤◌, IfSome};
ghost use Rattle.replay_tokens.specs.Room.{room};

use crate::call::Call;
use crate::respond::Response;
use crate::solve::Step;
use replay_tokens::list::{LONGEST, WORDS, as_reals, filled, lent_reals};
use replay_tokens::print::Room;

fn turned<C: Call>(
    w: &[u32],
    line: &[f32],
    solution: &mut [f32],
    scratch: &mut [f32],
    residual: &mut [f32],
    out: &mut Room,
) -> usize
    ensures { result ≤ room }
{
    let at = usize::from(C::PLAINS);
    let lists = C::to_scratch();
    let mut direction = [0f32; LONGEST];
    let mut a_direction = [0f32; LONGEST];
    let mut z = [0f32; LONGEST];
    let i = lent_reals(w, at, lists + 2, &mut direction);
    let j = lent_reals(w, at, lists + 3, &mut a_direction);
    let k = lent_reals(w, at, lists + 4, &mut z);
    C::call(w, line, solution, scratch, residual, i, j, k, out)
}

fn started<C: Call>(w: &[u32], line: &[f32], out: &mut Room) -> usize
    ensures { result ≤ room }
{
    let at = usize::from(C::PLAINS);
    let lists = C::to_scratch();
    let mut solution = [0f32; LONGEST];
    let mut scratch = [0f32; LONGEST];
    let mut residual = [0f32; LONGEST];
    let i = lent_reals(w, at, usize::from(C::TO_SOLUTION), &mut solution);
    let j = lent_reals(w, at, lists, &mut scratch);
    let k = lent_reals(w, at, lists + 1, &mut residual);
    turned::<C>(w, line, i, j, k, out)
}

fn lend<C: Call>(w: &[u32], out: &mut Room) -> usize
    ensures { result ≤ room }
{
    let mut reals = [0f32; WORDS];
    let line = as_reals(w, &mut reals);
    started::<C>(w, line, out)
}

pub fn solve_step(w: &[u32], out: &mut Room) -> Option<usize>
    ensures { IfSome result (λ at. at ≤ room) }
{
    if !filled(w, 5, 18) {
        return None;
    }
    Some(lend::<Step>(w, out))
}

pub fn response_into(w: &[u32], out: &mut Room) -> Option<usize>
    ensures { IfSome result (λ at. at ≤ room) }
{
    if !filled(w, 6, 21) {
        return None;
    }
    Some(lend::<Response>(w, out))
}
