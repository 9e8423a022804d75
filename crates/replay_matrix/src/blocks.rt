// The block matrix's other operations, over a pattern's lists as they stand in the line. Values stand in buffers.
ghost use Rattle.std.specs.Prelude.{◌≤◌, IfSome};
ghost use Rattle.replay_tokens.specs.Room.{room};

use law::wide;
use replay_tokens::lent::pattern;
use replay_tokens::list::{LONGEST, filled, lent_bytes, lent_reals, plain};
use replay_tokens::print::{Room, float_list};
use replay_tokens::verdict::{counted, first_words};

pub fn block_index(w: &[u32], out: &mut Room) -> Option<usize>
    ensures { IfSome result (λ at. at ≤ room) }
{
    if w.len() < 3 {
        return None;
    }
    if !filled(w, 3, 3) {
        return None;
    }
    let slot = matrix_doors::block_index(&pattern(w, 3), wide(w[1]), w[2]);
    Some(counted(slot.map(u64::from), out))
}

pub fn diagonal_index(w: &[u32], out: &mut Room) -> Option<usize>
    ensures { IfSome result (λ at. at ≤ room) }
{
    if w.len() < 2 {
        return None;
    }
    if !filled(w, 2, 3) {
        return None;
    }
    let slot = matrix_doors::diagonal_index(&pattern(w, 2), wide(w[1]));
    Some(counted(slot.map(u64::from), out))
}

fn call_clear(w: &[u32], blocks: &mut [f32], out: &mut Room) -> usize
    ensures { result ≤ room }
{
    let at = first_words(&matrix_doors::clear_values(&pattern(w, 1), blocks), out);
    float_list(blocks, out, at)
}

pub fn clear_values(w: &[u32], out: &mut Room) -> Option<usize>
    ensures { IfSome result (λ at. at ≤ room) }
{
    if !filled(w, 1, 4) {
        return None;
    }
    let mut blocks = [0f32; LONGEST];
    Some(call_clear(w, lent_reals(w, 1, 3, &mut blocks), out))
}

fn call_pin(w: &[u32], blocks: &mut [f32], out: &mut Room) -> usize
    ensures { result ≤ room }
{
    let row = wide(plain(w, 1));
    let at = first_words(
        &matrix_doors::make_dirichlet(&pattern(w, 2), row, blocks),
        out,
    );
    float_list(blocks, out, at)
}

pub fn make_dirichlet(w: &[u32], out: &mut Room) -> Option<usize>
    ensures { IfSome result (λ at. at ≤ room) }
{
    if !filled(w, 2, 4) {
        return None;
    }
    let mut blocks = [0f32; LONGEST];
    Some(call_pin(w, lent_reals(w, 2, 3, &mut blocks), out))
}

fn call_pin_marked(w: &[u32], marks: &[u8], blocks: &mut [f32], out: &mut Room) -> usize
    ensures { result ≤ room }
{
    let at = first_words(
        &matrix_doors::make_dirichlet_marked(&pattern(w, 1), marks, blocks),
        out,
    );
    float_list(blocks, out, at)
}

pub fn make_dirichlet_marked(w: &[u32], out: &mut Room) -> Option<usize>
    ensures { IfSome result (λ at. at ≤ room) }
{
    if !filled(w, 1, 5) {
        return None;
    }
    let mut marks = [0u8; LONGEST];
    let mut blocks = [0f32; LONGEST];
    let m = lent_bytes(w, 1, 3, &mut marks);
    let b = lent_reals(w, 1, 4, &mut blocks);
    Some(call_pin_marked(w, m, b, out))
}

fn call_mul(w: &[u32], blocks: &[f32], x: &[f32], product: &mut [f32], out: &mut Room) -> usize
    ensures { result ≤ room }
{
    let at = first_words(&matrix_doors::mul(&pattern(w, 1), blocks, x, product), out);
    float_list(product, out, at)
}

pub fn mul(w: &[u32], out: &mut Room) -> Option<usize>
    ensures { IfSome result (λ at. at ≤ room) }
{
    if !filled(w, 1, 6) {
        return None;
    }
    let mut blocks = [0f32; LONGEST];
    let mut x = [0f32; LONGEST];
    let mut product = [0f32; LONGEST];
    let b = lent_reals(w, 1, 3, &mut blocks);
    let k = lent_reals(w, 1, 4, &mut x);
    let t = lent_reals(w, 1, 5, &mut product);
    Some(call_mul(w, b, k, t, out))
}
