// A step solve, counted by the very door: `step_lent` lends it the line's record.
ghost use Rattle.std.specs.Prelude.{◌≤◌};
ghost use Rattle.replay_tokens.specs.Room.{room};

use crate::call::Call;
use crate::ending::of_step;
use crate::lines;
use law::refusal::Refusal;
use replay_gradient::ending::show;
use replay_tally::record;
use replay_tokens::list::reals;
use replay_tokens::print::{Room, float_list};
use replay_tokens::verdict::first_words;
use step_lent::After;
use step_solve::Stepped;

// The call, with what the line gives it.
fn made(
    w: &[u32],
    line: &[f32],
    x: &mut [f32],
    scratch: &mut [f32],
    residual: &mut [f32],
    direction: &mut [f32],
    a_direction: &mut [f32],
    z: &mut [f32],
) -> After<Result<Stepped, Refusal>> {
    step_lent::inner::solve_step(
        &lines::system(w, line, 5),
        reals(w, line, 5, 10),
        x,
        scratch,
        residual,
        direction,
        a_direction,
        z,
        record::read(w, 5, 17),
    )
}

// The verdict, the lists and the counts as they stand afterwards, and how the solve ended.
fn tell(
    after: After<Result<Stepped, Refusal>>,
    x: &[f32],
    scratch: &[f32],
    residual: &[f32],
    direction: &[f32],
    a_direction: &[f32],
    z: &[f32],
    out: &mut Room,
) -> usize
    ensures { result ≤ room }
{
    let answer = after.answer;
    let record = after.tally;
    let at = first_words(&answer, out);
    let mut to = float_list(x, out, at);
    to = show(scratch, residual, direction, a_direction, z, out, to);
    to = record::show(record, out, to);
    of_step(answer, out, to)
}

pub struct Step;

impl Call for Step {
    const PLAINS: u8 = 5;

    const TO_SOLUTION: u8 = 11;

    fn to_scratch() -> usize {
        12
    }

    fn call(
        w: &[u32],
        line: &[f32],
        x: &mut [f32],
        scratch: &mut [f32],
        residual: &mut [f32],
        direction: &mut [f32],
        a_direction: &mut [f32],
        z: &mut [f32],
        out: &mut Room,
    ) -> usize {
        let after = made(w, line, x, scratch, residual, direction, a_direction, z);
        tell(after, x, scratch, residual, direction, a_direction, z, out)
    }
}
