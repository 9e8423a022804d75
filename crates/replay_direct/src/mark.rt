// The step's factor. The answer is the verdict, 0 where the mark is set and 2 where the plan
// doesn't count, then the values and the preconditioner as they stand afterwards.
ghost use Rattle.std.specs.Prelude.{◌≤◌, IfSome};
ghost use Rattle.replay_tokens.specs.Room.{room};

use law::refusal::Refusal;
use law::wide;
use replay_tokens::lent;
use replay_tokens::list::{LONGEST, filled, lent_reals, plain};
use replay_tokens::print::{Room, float_list};
use replay_tokens::verdict::{done, failed, refused};
use step_solve::Marked;

fn marked(answer: Result<Marked, Refusal>, out: &mut Room) -> usize
    ensures { result ≤ room }
{
    match answer {
        Err(refusal) => refused(refusal, out),
        Ok(Marked::Direct) => done(0, out),
        Ok(Marked::Failed { row, pivot }) => failed(row, pivot, out),
        Ok(Marked::Iterative) => done(2, out),
    }
}

// The call, with what the line gives it.
fn made(
    w: &[u32],
    blocks: &[f32],
    values: &mut [f32],
    preconditioner: &mut [f32],
) -> Result<Marked, Refusal> {
    step_doors::factorize_step_matrix(
        &lent::pattern(w, 2),
        blocks,
        &lent::plan(w, 2, 4),
        wide(plain(w, 1)),
        values,
        preconditioner,
    )
}

fn call(
    w: &[u32],
    blocks: &[f32],
    values: &mut [f32],
    preconditioner: &mut [f32],
    out: &mut Room,
) -> usize
    ensures { result ≤ room }
{
    let at = marked(made(w, blocks, values, preconditioner), out);
    let to = float_list(values, out, at);
    float_list(preconditioner, out, to)
}

pub fn factorize_step_matrix(w: &[u32], out: &mut Room) -> Option<usize>
    ensures { IfSome result (λ at. at ≤ room) }
{
    if !filled(w, 2, 10) {
        return None;
    }
    let mut blocks = [0f32; LONGEST];
    let mut values = [0f32; LONGEST];
    let mut preconditioner = [0f32; LONGEST];
    let i = lent_reals(w, 2, 3, &mut blocks);
    let j = lent_reals(w, 2, 8, &mut values);
    let k = lent_reals(w, 2, 9, &mut preconditioner);
    Some(call(w, i, j, k, out))
}
