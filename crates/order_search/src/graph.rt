// A pattern in lists of just its length, as the graph that the ordering goes over.
ghost use Rattle.std.specs.Prelude.{◌≡◌, ◌≤◌, ◌<◌};
ghost use Rattle.law.specs.Limit.{particles};
ghost use Rattle.order_definition.specs.Order.{row};
ghost use Rattle.order_definition.specs.Tight.{Tight, Tight-prop};

// n particles; each one's row lists those that it has a stored block with, itself among them.
#[derive(Clone, Copy)]
pub struct Graph<'a> {
    pub n: usize,
    pub row_offsets: &'a [u32],
    pub cols: &'a [u32],
    pub ghost tight: { Tight n row_offsets.now cols.now } by { Tight-prop _ _ _ },
    pub ghost few: { n ≤ particles },
}

impl<'a> Graph<'a> {
    pub fn row(&self, v: usize) -> &[u32]
        requires { v < self.now.n }
        ensures { result.now ≡ row self.now.row_offsets.now self.now.cols.now v }
    {
        let from = law::wide(self.row_offsets[v]);
        let to = law::wide(self.row_offsets[v + 1]);
        &self.cols[from..to]
    }
}
