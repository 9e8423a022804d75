// The order itself, over a graph that its caller knows and lists of just the length needed.
ghost use Rattle.std.specs.Prelude.{◌≡◌, length};
ghost use Rattle.order_definition.specs.Order.{order_of};
ghost use Rattle.order_definition.specs.Searches.{Lists};

use crate::place;
use order_search::graph::Graph;
use order_start::ranked::Ranked;
use order_tables::tables;

// Every list is as long as there are particles. What the work lists hold before is not read. The order is left in `queue`, since planning writes no
// list of its caller's before the envelope fits; what the other work lists hold afterwards is open.
pub fn reverse_cuthill_mckee(
    graph: &Graph,
    degrees: &mut [u32],
    placed: &mut [u32],
    mark: &mut [u32],
    level: &mut [u32],
    queue: &mut [u32],
)
    requires lists { Lists graph.now.n mark.old level.old queue.old }
    requires degrees_len { length degrees.old ≡ graph.now.n }
    requires placed_len { length placed.old ≡ graph.now.n }
    ensures { queue.new ≡ order_of graph.now.n graph.now.row_offsets.now graph.now.cols.now }
{
    law::lists::clear(mark);
    tables::fill_degrees(graph.row_offsets, degrees);
    let graph = *graph;
    let ranked = Ranked { graph, degrees };
    place::place_all(&ranked, placed, mark, level, queue);
    tables::reverse_into(placed, queue);
}
