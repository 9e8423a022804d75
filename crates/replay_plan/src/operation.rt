// Planning on the words of a stored case's line. The answer is the verdict, then every list that the call may change, as it stands
// afterwards. The lists are lent by twos and threes: what a function knows makes each of its steps dear to check.
ghost use Rattle.std.specs.Prelude.{◌≤◌, IfSome};
ghost use Rattle.replay_tokens.specs.Room.{room};

use law::refusal::Refusal;
use replay_tokens::lent::pattern;
use replay_tokens::list::{LONGEST, filled, lent_wholes};
use replay_tokens::print::{Room, whole_list};
use replay_tokens::verdict::counted;

fn show_plan(
    perm: &[u32],
    inv_perm: &[u32],
    first: &[u32],
    row_start: &[u32],
    out: &mut Room,
    at: usize,
) -> usize
    requires { at ≤ room }
    ensures { result ≤ room }
{
    let mut to = whole_list(perm, out, at);
    to = whole_list(inv_perm, out, to);
    to = whole_list(first, out, to);
    whole_list(row_start, out, to)
}

fn show_work(
    degrees: &[u32],
    placed: &[u32],
    mark: &[u32],
    level: &[u32],
    queue: &[u32],
    out: &mut Room,
    at: usize,
) -> usize
    requires { at ≤ room }
    ensures { result ≤ room }
{
    let mut to = whole_list(degrees, out, at);
    to = whole_list(placed, out, to);
    to = whole_list(mark, out, to);
    to = whole_list(level, out, to);
    whole_list(queue, out, to)
}

// The call, with what the line gives it.
fn made(
    w: &[u32],
    perm: &mut [u32],
    inv_perm: &mut [u32],
    first: &mut [u32],
    row_start: &mut [u32],
    degrees: &mut [u32],
    placed: &mut [u32],
    mark: &mut [u32],
    level: &mut [u32],
    queue: &mut [u32],
) -> Result<usize, Refusal> {
    let pattern = pattern(w, 1);
    plan_doors::plan(
        &pattern, perm, inv_perm, first, row_start, degrees, placed, mark, level, queue,
    )
}

fn call(
    w: &[u32],
    perm: &mut [u32],
    inv_perm: &mut [u32],
    first: &mut [u32],
    row_start: &mut [u32],
    degrees: &mut [u32],
    placed: &mut [u32],
    mark: &mut [u32],
    level: &mut [u32],
    queue: &mut [u32],
    out: &mut Room,
) -> usize
    ensures { result ≤ room }
{
    let answer = made(
        w, perm, inv_perm, first, row_start, degrees, placed, mark, level, queue,
    );
    let at = counted(answer.map(|len| len as u64), out);
    let to = show_plan(perm, inv_perm, first, row_start, out, at);
    show_work(degrees, placed, mark, level, queue, out, to)
}

// Each of these lends the next lists of the line and hands on all that is lent.
fn searched(
    w: &[u32],
    perm: &mut [u32],
    inv_perm: &mut [u32],
    first: &mut [u32],
    row_start: &mut [u32],
    degrees: &mut [u32],
    placed: &mut [u32],
    out: &mut Room,
) -> usize
    ensures { result ≤ room }
{
    let mut mark = [0u32; LONGEST];
    let mut level = [0u32; LONGEST];
    let mut queue = [0u32; LONGEST];
    let i = lent_wholes(w, 1, 9, &mut mark);
    let j = lent_wholes(w, 1, 10, &mut level);
    let k = lent_wholes(w, 1, 11, &mut queue);
    call(
        w, perm, inv_perm, first, row_start, degrees, placed, i, j, k, out,
    )
}

fn places(
    w: &[u32],
    perm: &mut [u32],
    inv_perm: &mut [u32],
    first: &mut [u32],
    row_start: &mut [u32],
    out: &mut Room,
) -> usize
    ensures { result ≤ room }
{
    let mut degrees = [0u32; LONGEST];
    let mut placed = [0u32; LONGEST];
    let i = lent_wholes(w, 1, 7, &mut degrees);
    let j = lent_wholes(w, 1, 8, &mut placed);
    searched(w, perm, inv_perm, first, row_start, i, j, out)
}

fn rows(w: &[u32], perm: &mut [u32], inv_perm: &mut [u32], out: &mut Room) -> usize
    ensures { result ≤ room }
{
    let mut first = [0u32; LONGEST];
    let mut row_start = [0u32; LONGEST];
    let i = lent_wholes(w, 1, 5, &mut first);
    let j = lent_wholes(w, 1, 6, &mut row_start);
    places(w, perm, inv_perm, i, j, out)
}

pub fn plan(w: &[u32], out: &mut Room) -> Option<usize>
    ensures { IfSome result (λ at. at ≤ room) }
{
    if !filled(w, 1, 12) {
        return None;
    }
    let mut perm = [0u32; LONGEST];
    let mut inv_perm = [0u32; LONGEST];
    let i = lent_wholes(w, 1, 3, &mut perm);
    let j = lent_wholes(w, 1, 4, &mut inv_perm);
    Some(rows(w, i, j, out))
}
