// Where a stretch starts: the unplaced particle of least (degree, index), moved to the far end while that goes deeper.
ghost use Rattle.std.specs.Prelude.{◌≡◌, ◌<◌, length, IfSome};
ghost use Rattle.order_definition.specs.Order.{passing, numbers, least, degree, depth, far_of, settle, choose_start};
ghost use Rattle.order_definition.specs.Keys.{key_of, Below, offer, first_by, valued};
ghost use Rattle.order_definition.specs.Marks.{unmarked};
ghost use Rattle.order_definition.specs.Searches.{Lists, FreeAt, SomeFree};
ghost use Rattle.order_search.specs.Graph.{beside, reached};

use crate::ranked::Ranked;
use order_search::breadth;
use order_tables::{sort, tables};

// The lower of best and w by (degree, index), or w where there is no best.
fn lower_of(degrees: &[u32], best: Option<u32>, w: u32) -> u32
    requires w_in_bounds { w < length degrees.now }
    requires best_in_bounds { IfSome best (λ b. b < length degrees.now) }
    ensures { result ≡ offer (key_of degrees.now) best w }
{
    let Some(b) = best else {
        return w;
    };
    if sort::comes_before(degrees[law::wide(w)], w, degrees[law::wide(b)], b) {
        return w;
    }
    b
}

// Of those of the list whose value is `want`, the one of least (degree, index).
fn least_where(degrees: &[u32], vals: &[u32], list: &[u32], want: u32) -> Option<u32>
    requires below { Below (length degrees.now) list.now }
    requires vals_len { length vals.now ≡ length degrees.now }
    ensures { result ≡ first_by (key_of degrees.now) (passing (valued vals.now want) list.now) }
{
    let mut best = None;
    for w in list {
        if vals[law::wide(*w)] == want {
            best = Some(lower_of(degrees, best, *w));
        }
    }
    best
}

// The unmarked particle of least (degree, index).
fn first_free(ranked: &Ranked, mark: &[u32], queue: &mut [u32]) -> usize
    requires mark_len { length mark.now ≡ ranked.now.graph.n }
    requires queue_len { length queue.old ≡ ranked.now.graph.n }
    requires some_free { SomeFree mark.now }
    ensures free { FreeAt mark.now result }
    ensures value { result ≡ least ranked.now.graph.n (degree (beside ranked.now.graph))
        (passing (unmarked mark.now) (numbers ranked.now.graph.n)) }
{
    tables::count_up(queue);
    law::wide(least_where(ranked.degrees, mark, queue, 0).unwrap())
}

// What a search found: the far node and its level.
#[derive(Clone, Copy)]
struct Seen {
    far: usize,
    deep: u32,
}

// A search from s: the far node of the last level, and that level.
fn look(ranked: &Ranked, mark: &[u32], level: &mut [u32], queue: &mut [u32], s: usize) -> Seen
    requires lists { Lists ranked.now.graph.n mark.now level.old queue.old }
    requires free_at { FreeAt mark.now s }
    ensures far_free { FreeAt mark.now result.far }
    ensures far_value { result.far ≡ far_of (beside ranked.now.graph) ranked.now.graph.n (reached ranked.now.graph mark.now s) }
    ensures deep_value { result.deep ≡ depth (beside ranked.now.graph) ranked.now.graph.n (reached ranked.now.graph mark.now s) }
{
    let len = breadth::explore(&ranked.graph, mark, level, queue, s);
    let last = law::wide(queue[len - 1]);
    let deep = level[last];
    let far = least_where(ranked.degrees, level, &queue[..len], deep).unwrap();
    Seen {
        far: law::wide(far),
        deep,
    }
}

// At most four more searches, each from the far node, while they go deeper.
fn settle_start(
    ranked: &Ranked,
    mark: &[u32],
    level: &mut [u32],
    queue: &mut [u32],
    start: usize,
    seen: Seen,
) -> usize
    requires lists { Lists ranked.now.graph.n mark.now level.old queue.old }
    requires start_free { FreeAt mark.now start }
    requires far_free { FreeAt mark.now seen.far }
    ensures free { FreeAt mark.now result }
    ensures value { result ≡ settle (beside ranked.now.graph) ranked.now.graph.n (unmarked mark.now) 4 start seen.far seen.deep }
{
    let mut s = start;
    let mut last = seen;
    for _ in 0..4usize {
        let next = look(ranked, mark, level, queue, last.far);
        if next.deep <= last.deep {
            return s;
        }
        s = last.far;
        last = next;
    }
    s
}

// Where the next stretch starts.
pub fn find_start(ranked: &Ranked, mark: &[u32], level: &mut [u32], queue: &mut [u32]) -> usize
    requires lists { Lists ranked.now.graph.n mark.now level.old queue.old }
    requires some_free { SomeFree mark.now }
    ensures free { FreeAt mark.now result }
    ensures value { result ≡ choose_start (beside ranked.now.graph) ranked.now.graph.n (unmarked mark.now) }
{
    let s = first_free(ranked, mark, queue);
    let seen = look(ranked, mark, level, queue, s);
    settle_start(ranked, mark, level, queue, s, seen)
}
