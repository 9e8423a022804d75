// A graph with the table of its degrees, by which its particles are ranked.
ghost use Rattle.order_definition.specs.Searches.{TableOf, TableOf-prop};

use order_search::graph::Graph;

#[derive(Clone, Copy)]
pub struct Ranked<'a> {
    pub graph: Graph<'a>,
    pub degrees: &'a [u32],
    pub ghost table: { TableOf graph.row_offsets.now graph.cols.now graph.n degrees.now } by { TableOf-prop _ _ _ _ },
}
