// The pattern's buffers are filled from the rows' lists: each holds the numbers that are joined with its row, the least first.
ghost use Rattle.std.specs.Prelude.{◌+◌, ◌*◌, ◌≤◌, length};
ghost use Rattle.law.specs.Keep.{keep};
ghost use Rattle.matrix_pairs.specs.Pairs.{stored_by};
ghost use Rattle.matrix_lists.specs.Ways.{Given, apart};
ghost use Rattle.matrix_lists.specs.Chain.{Chain};
ghost use Rattle.matrix_build.specs.Swept.{Apart, Swept};
ghost use Rattle.matrix_build.specs.Filled.{Filling, Filled, Unfilled, AllFilled};

use matrix_pairs::pairs::Pairs;

// What is left of a row's list, and the next slot.
#[derive(Clone, Copy)]
struct Rest {
    list: usize,
    slot: usize,
}

// Stores the numbers of row r's list that are in from..to. The list has none below from; r and from only say so.
fn sweep(
    pairs: &Pairs,
    links: &[u32],
    r: usize,
    from: usize,
    to: usize,
    list: usize,
    at: usize,
    cols: &mut [u32],
) -> Rest
    requires given { Given pairs.now.n pairs.now.count pairs.now.list.now }
    requires from_le_to { (from ≤ to) × (to ≤ pairs.now.n) × (2 * pairs.now.count ≤ length links.now) }
    requires chain { Chain pairs.now.n pairs.now.count pairs.now.list.now links.now r (Apart pairs.now.count pairs.now.list.now r) list from }
    requires to_in_bounds { at + length (keep (apart pairs.now.list.now pairs.now.count r) from to) ≤ length cols.old }
    ensures { Swept pairs.now.n pairs.now.count pairs.now.list.now links.now r from to at cols.old result.list result.slot cols.new }
{
    let mut rest = list;
    let mut slot = at;
    while let Some(c) = matrix_lists::lists::front(pairs.list, rest) {
        if to <= c {
            break;
        }
        cols[slot] = c as u32;
        slot += 1;
        rest = law::wide(links[rest - 1]);
    }
    Rest { list: rest, slot }
}

// Row r, from slot at on; the slot after it.
fn fill_row(
    pairs: &Pairs,
    links: &[u32],
    r: usize,
    at: usize,
    row_offsets: &mut [u32],
    cols: &mut [u32],
    diagonal: &mut [u32],
) -> usize
    requires given { Given pairs.now.n pairs.now.count pairs.now.list.now }
    requires filling { Filling pairs.now.n pairs.now.count pairs.now.list.now links.now r at row_offsets.old cols.old diagonal.old }
    ensures { Filled pairs.now.n (stored_by pairs.now.list.now pairs.now.count) r at row_offsets.old cols.old diagonal.old result
        row_offsets.new cols.new diagonal.new }
{
    row_offsets[r] = at as u32;
    let list = law::wide(diagonal[r]);
    let low = sweep(pairs, links, r, 0, r, list, at, cols);
    let own = low.slot;
    diagonal[r] = own as u32;
    cols[own] = r as u32;
    let high = sweep(pairs, links, r, r + 1, pairs.n, low.list, own + 1, cols);
    high.slot
}

// A loop by r: a row is stored by its number.
pub fn fill_rows(
    pairs: &Pairs,
    links: &[u32],
    row_offsets: &mut [u32],
    cols: &mut [u32],
    diagonal: &mut [u32],
) -> usize
    requires given { Given pairs.now.n pairs.now.count pairs.now.list.now }
    requires unfilled { Unfilled pairs.now.n pairs.now.count pairs.now.list.now links.now row_offsets.old cols.old diagonal.old }
    ensures { AllFilled pairs.now.n (stored_by pairs.now.list.now pairs.now.count) cols.old result row_offsets.new cols.new
        diagonal.new }
{
    let mut at = 0;
    for r in 0..pairs.n {
        at = fill_row(pairs, links, r, at, row_offsets, cols, diagonal);
    }
    row_offsets[pairs.n] = at as u32;
    at
}
