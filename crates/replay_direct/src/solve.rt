// Solving, over a plan's lists as they stand in the line. Values stand in buffers. The
// answer is the verdict, then x and the scratch as they stand afterwards.
ghost use Rattle.std.specs.Prelude.{◌≤◌, IfSome};
ghost use Rattle.replay_tokens.specs.Room.{room};

use law::refusal::Refusal;
use law::wide;
use replay_tokens::lent;
use replay_tokens::list::{LONGEST, WORDS, as_reals, filled, lent_reals, plain, reals};
use replay_tokens::print::{Room, float_list};
use replay_tokens::verdict::first_words;

// The call, with what the line gives it.
fn made(w: &[u32], line: &[f32], x: &mut [f32], scratch: &mut [f32]) -> Result<(), Refusal> {
    factor_doors::solve(
        wide(plain(w, 0)),
        &lent::plan(w, 1, 0),
        reals(w, line, 1, 4),
        reals(w, line, 1, 5),
        x,
        scratch,
    )
}

fn call(w: &[u32], line: &[f32], x: &mut [f32], scratch: &mut [f32], out: &mut Room) -> usize
    ensures { result ≤ room }
{
    let at = first_words(&made(w, line, x, scratch), out);
    let to = float_list(x, out, at);
    float_list(scratch, out, to)
}

pub fn solve(w: &[u32], out: &mut Room) -> Option<usize>
    ensures { IfSome result (λ at. at ≤ room) }
{
    if !filled(w, 1, 8) {
        return None;
    }
    let mut line = [0f32; WORDS];
    let mut x = [0f32; LONGEST];
    let mut scratch = [0f32; LONGEST];
    let i = as_reals(w, &mut line);
    let j = lent_reals(w, 1, 6, &mut x);
    let k = lent_reals(w, 1, 7, &mut scratch);
    Some(call(w, i, j, k, out))
}
