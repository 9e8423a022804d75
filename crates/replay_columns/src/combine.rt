// A response combined from a line's columns, and a particle's block.
ghost use Rattle.std.specs.Prelude.{◌≤◌, IfSome};
ghost use Rattle.replay_tokens.specs.Room.{room};

use crate::ending::{of_block, of_combined};
use crate::table::table;
use law::wide;
use replay_tokens::list::{
    LONGEST, WORDS, as_reals, filled, lent_bytes, lent_reals, plain, reals, wholes,
};
use replay_tokens::print::{Room, float_list};
use replay_tokens::verdict::first_words;
use step_entries::entries::Entries;

fn call_combine(w: &[u32], line: &[f32], pinned: &[u8], sum: &mut [f32], out: &mut Room) -> usize
    ensures { result ≤ room }
{
    let entries = Entries {
        count: wide(plain(w, 2)),
        particles: wholes(w, 3, 3),
        gradients: reals(w, line, 3, 4),
    };
    let answer = columns_doors::response_from_columns(
        wide(plain(w, 0)),
        &table(w, 1, pinned, 3, 1),
        reals(w, line, 3, 2),
        &entries,
        sum,
    );
    let mut to = first_words(&answer, out);
    to = float_list(sum, out, to);
    of_combined(answer, out, to)
}

fn call_block(w: &[u32], line: &[f32], pinned: &[u8], copy: &mut [f32], out: &mut Room) -> usize
    ensures { result ≤ room }
{
    let answer = columns_doors::particle_block_from_columns(
        wide(plain(w, 0)),
        &table(w, 1, pinned, 3, 1),
        reals(w, line, 3, 2),
        wide(plain(w, 2)),
        copy,
    );
    let mut to = first_words(&answer, out);
    to = float_list(copy, out, to);
    of_block(answer, out, to)
}

// The line's list that is written stands `lists` lists behind the first.
fn lend(entries: bool, w: &[u32], lists: usize, out: &mut Room) -> usize
    requires { lists ≤ 5 }
    ensures { result ≤ room }
{
    let mut line = [0f32; WORDS];
    let mut pinned = [0u8; LONGEST];
    let mut written = [0f32; LONGEST];
    let i = as_reals(w, &mut line);
    let j = lent_bytes(w, 3, 0, &mut pinned);
    let k = lent_reals(w, 3, lists, &mut written);
    if entries {
        call_combine(w, i, j, k, out)
    } else {
        call_block(w, i, j, k, out)
    }
}

pub fn response_from_columns(w: &[u32], out: &mut Room) -> Option<usize>
    ensures { IfSome result (λ at. at ≤ room) }
{
    if !filled(w, 3, 6) {
        return None;
    }
    Some(lend(true, w, 5, out))
}

pub fn particle_block_from_columns(w: &[u32], out: &mut Room) -> Option<usize>
    ensures { IfSome result (λ at. at ≤ room) }
{
    if !filled(w, 3, 4) {
        return None;
    }
    Some(lend(false, w, 3, out))
}
