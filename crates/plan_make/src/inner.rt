// Planning on the parts of the lent lists that it needs. The order and the places are worked out in
// work lists, so that nothing else is written before the envelope is known to fit.
// The lists that are written stay parameters: of a struct of them each clause would have to say that its fields keep their references.
ghost use Rattle.std.specs.Prelude.{◌≡◌, length};
ghost use Rattle.plan_layout.specs.EachOnce.{EachOnce};
ghost use Rattle.plan_make.specs.Plan.{four, plan_by};
ghost use Rattle.plan_make.specs.Parts.{five, made, order_over, Room, Desk, Measured, zeros, settled, made_of};

use order_search::graph::Graph;
use plan_layout::ordered::Ordered;
use plan_layout::{rows, tables};

// The order goes into `queue` and the place of each particle into `level`. Answers how long the envelope is.
fn measure(
    graph: &Graph,
    degrees: &mut [u32],
    placed: &mut [u32],
    mark: &mut [u32],
    level: &mut [u32],
    queue: &mut [u32],
) -> usize
    requires { EachOnce graph.now.n (order_over graph.now)
        × Desk graph.now.n (five degrees.old placed.old mark.old level.old queue.old) }
    ensures { Measured graph.now.n graph.now.row_offsets.now graph.now.cols.now result level.new queue.new }
{
    order_make::inner::reverse_cuthill_mckee(graph, degrees, placed, mark, level, queue);
    tables::invert(queue, level);
    let graph = *graph;
    rows::envelope(&Ordered {
        graph,
        order: queue,
        inverse: level,
    })
}

// Where the envelope fits, the four lists are written.
#[tactic(auto, unfolding(crate::specs::Parts::settled))]
fn settle(
    ordered: &Ordered,
    len: usize,
    perm: &mut [u32],
    inv_perm: &mut [u32],
    first: &mut [u32],
    row_start: &mut [u32],
)
    requires { Room ordered.now.graph.n (four perm.old inv_perm.old first.old row_start.old) }
    ensures { four perm.new inv_perm.new first.new row_start.new ≡ settled len
        (plan_by ordered.now.graph.n ordered.now.graph.row_offsets.now ordered.now.graph.cols.now ordered.now.order.now)
        (four perm.old inv_perm.old first.old row_start.old) }
{
    if law::ENVELOPE < len {
        return;
    }
    tables::copy(ordered.order, perm);
    tables::copy(ordered.inverse, inv_perm);
    rows::fill_first(ordered, first);
    rows::fill_starts(first, row_start);
}

#[tactic(auto, unfolding(crate::specs::Parts::zeros))]
fn clear_all(
    degrees: &mut [u32],
    placed: &mut [u32],
    mark: &mut [u32],
    level: &mut [u32],
    queue: &mut [u32],
)
    requires { Desk (length queue.old) (five degrees.old placed.old mark.old level.old queue.old) }
    ensures { five degrees.new placed.new mark.new level.new queue.new ≡ zeros
        (length queue.old) }
{
    law::lists::clear(degrees);
    law::lists::clear(placed);
    law::lists::clear(mark);
    law::lists::clear(level);
    law::lists::clear(queue);
}

// The plan. Answers how long the envelope is, also where it does not fit; then the four lists are as they were.
pub fn plan(
    graph: &Graph,
    perm: &mut [u32],
    inv_perm: &mut [u32],
    first: &mut [u32],
    row_start: &mut [u32],
    degrees: &mut [u32],
    placed: &mut [u32],
    mark: &mut [u32],
    level: &mut [u32],
    queue: &mut [u32],
) -> usize
    requires { EachOnce graph.now.n (order_over graph.now)
        × (Room graph.now.n (four perm.old inv_perm.old first.old row_start.old)
        × Desk graph.now.n (five degrees.old placed.old mark.old level.old queue.old)) }
    ensures { made result
        (four perm.new inv_perm.new first.new row_start.new)
        (five degrees.new placed.new mark.new level.new queue.new)
        ≡ made_of graph.now.n graph.now.row_offsets.now graph.now.cols.now
        (four perm.old inv_perm.old first.old row_start.old) }
{
    let len = measure(graph, degrees, placed, mark, level, queue);
    let graph = *graph;
    let ordered = Ordered {
        graph,
        order: queue,
        inverse: level,
    };
    settle(&ordered, len, perm, inv_perm, first, row_start);
    clear_all(degrees, placed, mark, level, queue);
    len
}
