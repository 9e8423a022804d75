// The columns computed. The lists that it works in are lent by threes, since what a function knows makes each of its steps dear to check.
ghost use Rattle.std.specs.Prelude.{◌≤◌, IfSome};
ghost use Rattle.replay_tokens.specs.Room.{room};

use crate::ending::of_computed;
use crate::table::table;
use columns_make::Ended;
use law::refusal::Refusal;
use replay_gradient::ending::show;
use replay_step::lines::system;
use replay_tally::record;
use replay_tokens::list::{LONGEST, WORDS, as_reals, filled, lent_bytes, lent_reals};
use replay_tokens::print::{Room, float_list};
use replay_tokens::verdict::first_words;
use step_tally::Tally;

// The call, with what the line gives it.
fn made(
    w: &[u32],
    line: &[f32],
    pinned: &[u8],
    columns: &mut [f32],
    rhs: &mut [f32],
    scratch: &mut [f32],
    residual: &mut [f32],
    direction: &mut [f32],
    a_direction: &mut [f32],
    z: &mut [f32],
    tally: &mut Tally,
) -> Result<Ended, Refusal> {
    columns_doors::compute_columns(
        &system(w, line, 6),
        &table(w, 5, pinned, 6, 11),
        columns,
        rhs,
        scratch,
        residual,
        direction,
        a_direction,
        z,
        tally,
    )
}

// The verdict, the lists and the counts as they stand afterwards, and how the solves ended.
fn tell(
    answer: Result<Ended, Refusal>,
    tally: Tally,
    columns: &[f32],
    rhs: &[f32],
    scratch: &[f32],
    residual: &[f32],
    direction: &[f32],
    a_direction: &[f32],
    z: &[f32],
    out: &mut Room,
) -> usize
    ensures { result ≤ room }
{
    let mut to = first_words(&answer, out);
    to = float_list(columns, out, to);
    to = float_list(rhs, out, to);
    to = show(scratch, residual, direction, a_direction, z, out, to);
    to = record::show(tally, out, to);
    of_computed(answer, out, to)
}

fn call(
    w: &[u32],
    line: &[f32],
    columns: &mut [f32],
    rhs: &mut [f32],
    scratch: &mut [f32],
    residual: &mut [f32],
    direction: &mut [f32],
    a_direction: &mut [f32],
    z: &mut [f32],
    out: &mut Room,
) -> usize
    ensures { result ≤ room }
{
    let mut pinned = [0u8; LONGEST];
    let i = lent_bytes(w, 6, 10, &mut pinned);
    let mut tally = record::read(w, 6, 19);
    let answer = made(
        w,
        line,
        i,
        columns,
        rhs,
        scratch,
        residual,
        direction,
        a_direction,
        z,
        &mut tally,
    );
    tell(
        answer,
        tally,
        columns,
        rhs,
        scratch,
        residual,
        direction,
        a_direction,
        z,
        out,
    )
}

fn turned(
    w: &[u32],
    line: &[f32],
    columns: &mut [f32],
    rhs: &mut [f32],
    scratch: &mut [f32],
    residual: &mut [f32],
    out: &mut Room,
) -> usize
    ensures { result ≤ room }
{
    let mut direction = [0f32; LONGEST];
    let mut a_direction = [0f32; LONGEST];
    let mut z = [0f32; LONGEST];
    let i = lent_reals(w, 6, 16, &mut direction);
    let j = lent_reals(w, 6, 17, &mut a_direction);
    let k = lent_reals(w, 6, 18, &mut z);
    call(w, line, columns, rhs, scratch, residual, i, j, k, out)
}

fn started(w: &[u32], line: &[f32], columns: &mut [f32], out: &mut Room) -> usize
    ensures { result ≤ room }
{
    let mut rhs = [0f32; LONGEST];
    let mut scratch = [0f32; LONGEST];
    let mut residual = [0f32; LONGEST];
    let i = lent_reals(w, 6, 13, &mut rhs);
    let j = lent_reals(w, 6, 14, &mut scratch);
    let k = lent_reals(w, 6, 15, &mut residual);
    turned(w, line, columns, i, j, k, out)
}

pub fn compute_columns(w: &[u32], out: &mut Room) -> Option<usize>
    ensures { IfSome result (λ at. at ≤ room) }
{
    if !filled(w, 6, 20) {
        return None;
    }
    let mut line = [0f32; WORDS];
    let mut columns = [0f32; LONGEST];
    let i = as_reals(w, &mut line);
    let j = lent_reals(w, 6, 12, &mut columns);
    Some(started(w, i, j, out))
}
