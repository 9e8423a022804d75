// The building operations. The answer is the verdict, then every list that the call may change, as it stands afterwards. The lists are
// lent by twos and threes: what a function knows makes each of its steps dear to check.
ghost use Rattle.std.specs.Prelude.{◌≤◌, IfSome};
ghost use Rattle.replay_tokens.specs.Room.{room};

use law::refusal::Refusal;
use law::wide;
use replay_tokens::list::{LONGEST, filled, lent_reals, lent_wholes, plain, wholes};
use replay_tokens::print::{Room, float_list, whole_list};
use replay_tokens::verdict::counted;

fn show_pattern(
    row_offsets: &[u32],
    cols: &[u32],
    diagonal: &[u32],
    out: &mut Room,
    at: usize,
) -> usize
    requires { at ≤ room }
    ensures { result ≤ room }
{
    let mut to = whole_list(row_offsets, out, at);
    to = whole_list(cols, out, to);
    whole_list(diagonal, out, to)
}

// The call, with what the line gives it.
fn made_pattern(
    w: &[u32],
    row_offsets: &mut [u32],
    cols: &mut [u32],
    diagonal: &mut [u32],
    work: &mut [u32],
) -> Result<usize, Refusal> {
    matrix_doors::pattern_from_pairs(
        wide(plain(w, 0)),
        wide(plain(w, 1)),
        wholes(w, 2, 0),
        row_offsets,
        cols,
        diagonal,
        work,
    )
}

fn call_pattern(
    w: &[u32],
    row_offsets: &mut [u32],
    cols: &mut [u32],
    diagonal: &mut [u32],
    work: &mut [u32],
    out: &mut Room,
) -> usize
    ensures { result ≤ room }
{
    let built = made_pattern(w, row_offsets, cols, diagonal, work);
    let at = counted(built.map(|blocks| blocks as u64), out);
    let to = show_pattern(row_offsets, cols, diagonal, out, at);
    whole_list(work, out, to)
}

fn made_matrix(
    w: &[u32],
    row_offsets: &mut [u32],
    cols: &mut [u32],
    diagonal: &mut [u32],
    blocks: &mut [f32],
    work: &mut [u32],
) -> Result<usize, Refusal> {
    matrix_doors::from_pairs(
        wide(plain(w, 0)),
        wide(plain(w, 1)),
        wholes(w, 2, 0),
        row_offsets,
        cols,
        diagonal,
        blocks,
        work,
    )
}

fn call_matrix(
    w: &[u32],
    row_offsets: &mut [u32],
    cols: &mut [u32],
    diagonal: &mut [u32],
    blocks: &mut [f32],
    work: &mut [u32],
    out: &mut Room,
) -> usize
    ensures { result ≤ room }
{
    let built = made_matrix(w, row_offsets, cols, diagonal, blocks, work);
    let at = counted(built.map(|blocks| blocks as u64), out);
    let mut to = show_pattern(row_offsets, cols, diagonal, out, at);
    to = float_list(blocks, out, to);
    whole_list(work, out, to)
}

// The lists behind the columns: without block values, and with.
fn pattern_alone(w: &[u32], row_offsets: &mut [u32], cols: &mut [u32], out: &mut Room) -> usize
    ensures { result ≤ room }
{
    let mut diagonal = [0u32; LONGEST];
    let mut work = [0u32; LONGEST];
    let d = lent_wholes(w, 2, 3, &mut diagonal);
    let t = lent_wholes(w, 2, 4, &mut work);
    call_pattern(w, row_offsets, cols, d, t, out)
}

fn matrix(w: &[u32], row_offsets: &mut [u32], cols: &mut [u32], out: &mut Room) -> usize
    ensures { result ≤ room }
{
    let mut diagonal = [0u32; LONGEST];
    let mut blocks = [0f32; LONGEST];
    let mut work = [0u32; LONGEST];
    let d = lent_wholes(w, 2, 3, &mut diagonal);
    let b = lent_reals(w, 2, 4, &mut blocks);
    let t = lent_wholes(w, 2, 5, &mut work);
    call_matrix(w, row_offsets, cols, d, b, t, out)
}

pub fn pattern_from_pairs(w: &[u32], out: &mut Room) -> Option<usize>
    ensures { IfSome result (λ at. at ≤ room) }
{
    if !filled(w, 2, 5) {
        return None;
    }
    let mut row_offsets = [0u32; LONGEST];
    let mut cols = [0u32; LONGEST];
    let r = lent_wholes(w, 2, 1, &mut row_offsets);
    let c = lent_wholes(w, 2, 2, &mut cols);
    Some(pattern_alone(w, r, c, out))
}

pub fn from_pairs(w: &[u32], out: &mut Room) -> Option<usize>
    ensures { IfSome result (λ at. at ≤ room) }
{
    if !filled(w, 2, 6) {
        return None;
    }
    let mut row_offsets = [0u32; LONGEST];
    let mut cols = [0u32; LONGEST];
    let r = lent_wholes(w, 2, 1, &mut row_offsets);
    let c = lent_wholes(w, 2, 2, &mut cols);
    Some(matrix(w, r, c, out))
}
