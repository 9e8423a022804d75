// The breadth-first search over the particles that are not marked.
// Lists that are written stay parameters, and the queue's length beside it: of a struct of them each clause would say that its fields keep their references.
ghost use Rattle.std.specs.Prelude.{◌≡◌, not, ◌&&◌, ◌≤◌, ◌<◌, eqb, length, get_or};
ghost use Rattle.order_definition.specs.Keys.{Below};
ghost use Rattle.order_definition.specs.Marks.{unmarked};
ghost use Rattle.order_definition.specs.Searches.{Searched, Lists, FreeAt, reach_of, meet_row};
ghost use Rattle.order_search.specs.Graph.{reached};

use crate::graph::Graph;

// Is w another than v, and not marked?
pub fn is_open(mark: &[u32], v: usize, w: usize) -> bool
    requires { w < length mark.now }
    ensures { result ≡ (not (eqb w v) && unmarked mark.now w) }
{
    (w != v) & (mark[w] == 0)
}

// Does the search meet w in v's row: it is open and has no level yet?
fn is_new(mark: &[u32], level: &[u32], v: usize, w: usize) -> bool
    requires mark_in_bounds { w < length mark.now }
    requires level_in_bounds { w < length level.now }
    ensures { result ≡ ((not (eqb w v) && unmarked mark.now w) && eqb (get_or level.now w 0) 0) }
{
    is_open(mark, v, w) & (level[w] == 0)
}

// v meets those of its row, at the level l. Answers the queue's new length.
fn meet_row(
    row: &[u32],
    mark: &[u32],
    level: &mut [u32],
    queue: &mut [u32],
    v: usize,
    len: usize,
    l: u32,
) -> usize
    requires below { Below (length mark.now) row.now }
    requires level_len { length level.old ≡ length mark.now }
    requires len_in_bounds { len ≤ length queue.old }
    requires room { length (meet_row row.now mark.now l v (reach_of queue.old level.old len)).queue ≤ length queue.old }
    ensures { Searched
        (meet_row row.now mark.now l v (reach_of queue.old level.old len))
        queue.new level.new result }
{
    let mut at = len;
    for c in row {
        let w = law::wide(*c);
        if is_new(mark, level, v, w) {
            level[w] = l;
            queue[at] = *c;
            at += 1;
        }
    }
    at
}

// The search from s. Answers the queue's length.
pub fn explore(graph: &Graph, mark: &[u32], level: &mut [u32], queue: &mut [u32], s: usize) -> usize
    requires lists { Lists graph.now.n mark.now level.old queue.old }
    requires free_at { FreeAt mark.now s }
    ensures { Searched (reached graph.now mark.now s) queue.new level.new result }
{
    law::lists::clear(level);
    level[s] = 1;
    // The cast is proved to fit; try_from would answer an error that can't be.
    queue[0] = s as u32;
    let mut len: usize = 1;
    let mut head: usize = 0;
    // No `for`: the queue grows while it is read.
    while head < len {
        let v = law::wide(queue[head]);
        let l = level[v] + 1;
        len = meet_row(graph.row(v), mark, level, queue, v, len, l);
        head += 1;
    }
    len
}
