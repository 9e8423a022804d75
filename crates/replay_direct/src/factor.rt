// Factoring, over a pattern's and a plan's lists as they stand in the line. Values stand in
// buffers. The answer is the verdict, then the values as they stand afterwards.
ghost use Rattle.std.specs.Prelude.{◌≤◌, IfSome};
ghost use Rattle.replay_tokens.specs.Room.{room};

use factor_make::Failed;
use law::refusal::Refusal;
use replay_tokens::lent;
use replay_tokens::list::{LONGEST, filled, lent_reals};
use replay_tokens::print::{Room, float_list, word};
use replay_tokens::verdict::{failed, refused};

fn factored(answer: Result<Result<(), Failed>, Refusal>, out: &mut Room) -> usize
    ensures { result ≤ room }
{
    match answer {
        Err(refusal) => refused(refusal, out),
        Ok(Ok(())) => word(b"done", out, 0),
        Ok(Err(Failed { row, pivot })) => failed(row, pivot, out),
    }
}

// The call, with what the line gives it.
fn made(w: &[u32], blocks: &[f32], values: &mut [f32]) -> Result<Result<(), Failed>, Refusal> {
    factor_doors::factorize(&lent::pattern(w, 1), blocks, &lent::plan(w, 1, 4), values)
}

fn call(w: &[u32], blocks: &[f32], values: &mut [f32], out: &mut Room) -> usize
    ensures { result ≤ room }
{
    let at = factored(made(w, blocks, values), out);
    float_list(values, out, at)
}

pub fn factorize(w: &[u32], out: &mut Room) -> Option<usize>
    ensures { IfSome result (λ at. at ≤ room) }
{
    if !filled(w, 1, 9) {
        return None;
    }
    let mut blocks = [0f32; LONGEST];
    let mut values = [0f32; LONGEST];
    let i = lent_reals(w, 1, 3, &mut blocks);
    let j = lent_reals(w, 1, 8, &mut values);
    Some(call(w, i, j, out))
}
