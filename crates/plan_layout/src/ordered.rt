// A graph with an order that lists each of its particles once, and the place of each.
ghost use Rattle.std.specs.Prelude.{◌≡◌};
ghost use Rattle.law.specs.Gather.{table};
ghost use Rattle.order_definition.specs.Envelope.{place_of};
ghost use Rattle.plan_layout.specs.EachOnce.{EachOnce, EachOnce-prop};

use order_search::graph::Graph;

#[derive(Clone, Copy)]
pub struct Ordered<'a> {
    pub graph: Graph<'a>,
    pub order: &'a [u32],
    pub inverse: &'a [u32],
    pub ghost listed: { EachOnce graph.n order.now } by { EachOnce-prop _ _ },
    pub ghost undone: { inverse.now ≡ table (place_of order.now) graph.n },
}
