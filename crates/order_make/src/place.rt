// The placing: breadth-first, stretch by stretch, each particle adding its unplaced neighbours by (degree, index). What is placed is marked.
// Lists that are written stay parameters, and the order's length beside it: of a struct of them each clause would say that its fields keep their references.
ghost use Rattle.std.specs.Prelude.{◌≡◌, ◌++◌, ◌+◌, ◌≤◌, ◌<◌, length, take, drop, replicate};
ghost use Rattle.order_definition.specs.Keys.{Below};
ghost use Rattle.order_definition.specs.Marks.{open_of, Visited, Stands};
ghost use Rattle.order_definition.specs.Searches.{Lists};
ghost use Rattle.order_make.specs.Placing.{placed_to, filled_to};

use order_search::breadth;
use order_start::ranked::Ranked;
use order_start::start;
use order_tables::{sort, tables};

// Those of v's row that are open go into `order` from place len on. Answers the place after the last.
// A walk of its own, beside the search's meet_row: one walk for both would take a closure that writes levels, and a proof loses what a closure writes.
fn append_open(row: &[u32], mark: &[u32], order: &mut [u32], v: usize, len: usize) -> usize
    requires below { Below (length mark.now) row.now }
    requires room { len + length (open_of row.now mark.now v) ≤ length order.old }
    ensures value { result ≡ len + length (open_of row.now mark.now v) }
    ensures order_after { order.new ≡ (take len order.old ++ open_of row.now mark.now v) ++ drop result order.old }
{
    let mut at = len;
    for w in row {
        if breadth::is_open(mark, v, law::wide(*w)) {
            order[at] = *w;
            at += 1;
        }
    }
    at
}

// v adds those of its row that are open to the order, sorted, and they are marked. Answers the place after the last.
fn visit(
    row: &[u32],
    degrees: &[u32],
    order: &mut [u32],
    mark: &mut [u32],
    v: usize,
    len: usize,
) -> usize
    requires below { Below (length mark.old) row.now }
    requires degrees_len { length degrees.now ≡ length mark.old }
    requires room { len + length (open_of row.now mark.old v) ≤ length order.old }
    ensures { Visited row.now degrees.now order.old mark.old v len result order.new mark.new }
{
    let end = append_open(row, mark, order, v, len);
    sort::sort_by_key(degrees, &mut order[len..end]);
    tables::mark_all(&order[len..end], mark);
    end
}

// Where nobody stands at place h yet, the next stretch's start is put there. Answers the length.
fn open_stretch(
    ranked: &Ranked,
    order: &mut [u32],
    mark: &mut [u32],
    level: &mut [u32],
    queue: &mut [u32],
    h: usize,
    len: usize,
) -> usize
    requires lists { Lists ranked.now.graph.n mark.old level.old queue.old }
    requires stands { Stands ranked.now.graph.n (placed_to ranked.now.graph h) order.old mark.old len }
    requires h_in_bounds { h < ranked.now.graph.n }
    ensures { Stands ranked.now.graph.n (filled_to ranked.now.graph h) order.new mark.new result }
{
    if h < len {
        return len;
    }
    let s = start::find_start(ranked, mark, level, queue);
    // The cast is proved to fit; try_from would answer an error that can't be.
    order[len] = s as u32;
    mark[s] = 1;
    len + 1
}

// The order, not yet reversed.
pub fn place_all(
    ranked: &Ranked,
    order: &mut [u32],
    mark: &mut [u32],
    level: &mut [u32],
    queue: &mut [u32],
)
    requires lists { Lists ranked.now.graph.n mark.old level.old queue.old }
    requires order_len { length order.old ≡ ranked.now.graph.n }
    requires unmarked { mark.old ≡ replicate ranked.now.graph.n 0 }
    ensures { order.new ≡ placed_to ranked.now.graph ranked.now.graph.n }
{
    let mut len: usize = 0;
    for h in 0..order.len() {
        len = open_stretch(ranked, order, mark, level, queue, h, len);
        let v = law::wide(order[h]);
        len = visit(ranked.graph.row(v), ranked.degrees, order, mark, v, len);
    }
}
