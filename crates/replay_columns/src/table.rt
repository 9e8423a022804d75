// The table of columns, which stands in a buffer.
ghost use Rattle.std.specs.Prelude.{◌≤◌, IfSome};
ghost use Rattle.replay_tokens.specs.Room.{room};

use columns_table::table::Table;
use law::wide;
use replay_tokens::list::{LONGEST, filled, lent_bytes, lent_wholes, plain, wholes};
use replay_tokens::print::{Room, whole_list};
use replay_tokens::verdict::counted;

// A line's table over its marks: how many are loaded is plain number `loaded`, and the list stands behind `at` plain numbers and `lists` lists.
pub fn table<'a>(
    w: &'a [u32],
    loaded: usize,
    pinned: &'a [u8],
    at: usize,
    lists: usize,
) -> Table<'a> {
    Table {
        pinned,
        loaded: wide(plain(w, loaded)),
        column_of: wholes(w, at, lists),
    }
}

fn call_clear(w: &[u32], column_of: &mut [u32], out: &mut Room) -> usize
    ensures { result ≤ room }
{
    let count = columns_doors::clear_columns(wide(plain(w, 0)), column_of);
    let at = counted(count.map(|count| count as u64), out);
    whole_list(column_of, out, at)
}

pub fn clear_columns(w: &[u32], out: &mut Room) -> Option<usize>
    ensures { IfSome result (λ at. at ≤ room) }
{
    if !filled(w, 1, 1) {
        return None;
    }
    let mut column_of = [0u32; LONGEST];
    let i = lent_wholes(w, 1, 0, &mut column_of);
    Some(call_clear(w, i, out))
}

fn call_load(w: &[u32], pinned: &[u8], column_of: &mut [u32], out: &mut Room) -> usize
    ensures { result ≤ room }
{
    let count = columns_doors::load_particle(
        wide(plain(w, 0)),
        pinned,
        wide(plain(w, 1)),
        wide(plain(w, 2)),
        column_of,
    );
    let at = counted(count.map(|count| count as u64), out);
    whole_list(column_of, out, at)
}

pub fn load_particle(w: &[u32], out: &mut Room) -> Option<usize>
    ensures { IfSome result (λ at. at ≤ room) }
{
    if !filled(w, 3, 2) {
        return None;
    }
    let mut pinned = [0u8; LONGEST];
    let mut column_of = [0u32; LONGEST];
    let i = lent_bytes(w, 3, 0, &mut pinned);
    let j = lent_wholes(w, 3, 1, &mut column_of);
    Some(call_load(w, i, j, out))
}
