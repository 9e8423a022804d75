// A response, counted by the very door: `step_lent` lends it the line's record.
ghost use Rattle.std.specs.Prelude.{◌≤◌};
ghost use Rattle.replay_tokens.specs.Room.{room};

use crate::call::Call;
use crate::ending::of_response;
use crate::lines;
use law::refusal::Refusal;
use law::wide;
use replay_gradient::ending::show;
use replay_tally::record;
use replay_tokens::list::{LONGEST, lent_bytes, lent_reals, plain, reals, wholes};
use replay_tokens::print::{Room, float_list};
use replay_tokens::verdict::first_words;
use step_entries::entries::Entries;
use step_lent::After;
use step_response::Responded;

// The call, with what the line gives it.
fn made(
    w: &[u32],
    line: &[f32],
    pinned: &[u8],
    solution: &mut [f32],
    rhs: &mut [f32],
    scratch: &mut [f32],
    residual: &mut [f32],
    direction: &mut [f32],
    a_direction: &mut [f32],
    z: &mut [f32],
) -> After<Result<Responded, Refusal>> {
    let entries = Entries {
        count: wide(plain(w, 5)),
        particles: wholes(w, 6, 11),
        gradients: reals(w, line, 6, 12),
    };
    step_lent::inner::response_into(
        &lines::system(w, line, 6),
        pinned,
        &entries,
        solution,
        rhs,
        scratch,
        residual,
        direction,
        a_direction,
        z,
        record::read(w, 6, 20),
    )
}

// The verdict, the lists and the counts as they stand afterwards, the gain and how the solve ended.
fn tell(
    after: After<Result<Responded, Refusal>>,
    solution: &[f32],
    rhs: &[f32],
    scratch: &[f32],
    residual: &[f32],
    direction: &[f32],
    a_direction: &[f32],
    z: &[f32],
    out: &mut Room,
) -> usize
    ensures { result ≤ room }
{
    let answer = after.answer;
    let record = after.tally;
    let at = first_words(&answer, out);
    let mut to = float_list(solution, out, at);
    to = float_list(rhs, out, to);
    to = show(scratch, residual, direction, a_direction, z, out, to);
    to = record::show(record, out, to);
    of_response(answer, out, to)
}

fn respond(
    w: &[u32],
    line: &[f32],
    pinned: &[u8],
    solution: &mut [f32],
    rhs: &mut [f32],
    scratch: &mut [f32],
    residual: &mut [f32],
    direction: &mut [f32],
    a_direction: &mut [f32],
    z: &mut [f32],
    out: &mut Room,
) -> usize
    ensures { result ≤ room }
{
    let after = made(
        w,
        line,
        pinned,
        solution,
        rhs,
        scratch,
        residual,
        direction,
        a_direction,
        z,
    );
    tell(
        after,
        solution,
        rhs,
        scratch,
        residual,
        direction,
        a_direction,
        z,
        out,
    )
}

pub struct Response;

// Two lists more than a step solve works with.
impl Call for Response {
    const PLAINS: u8 = 6;

    const TO_SOLUTION: u8 = 13;

    fn to_scratch() -> usize {
        15
    }

    fn call(
        w: &[u32],
        line: &[f32],
        solution: &mut [f32],
        scratch: &mut [f32],
        residual: &mut [f32],
        direction: &mut [f32],
        a_direction: &mut [f32],
        z: &mut [f32],
        out: &mut Room,
    ) -> usize {
        let mut pinned = [0u8; LONGEST];
        let mut rhs = [0f32; LONGEST];
        let i = lent_bytes(w, 6, 10, &mut pinned);
        let j = lent_reals(w, 6, 14, &mut rhs);
        respond(
            w,
            line,
            i,
            solution,
            j,
            scratch,
            residual,
            direction,
            a_direction,
            z,
            out,
        )
    }
}
