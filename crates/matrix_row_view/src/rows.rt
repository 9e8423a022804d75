// The lists that a row is read from, as a call is handed them. No diagonal is among them, since one row alone is shown.
ghost use Rattle.std.specs.Prelude.{◌≡◌, ◌+◌, ◌≤◌, ◌<◌, true, length, take};
ghost use Rattle.law.specs.Limit.{absent, particles};
ghost use Rattle.law.specs.Room.{enough};
ghost use Rattle.matrix_shape.specs.Rows.{at};
ghost use Rattle.matrix_row_view.specs.Showing.{rows_room};

// n block rows; row r's columns start at row_offsets[r] and end where the next row's start. Whatever is lent may stand here: a call tests it.
#[derive(Clone, Copy)]
pub struct Rows<'a> {
    pub n: usize,
    pub row_offsets: &'a [u32],
    pub cols: &'a [u32],
}

impl<'a> Rows<'a> {
    // Whether row offsets and columns are as long as their numbers say.
    #[tactic(auto, unfolding(law::specs::Room::enough, crate::specs::Showing::rows_room))]
    pub fn has_room(&self) -> bool
        requires { self.now.n ≤ particles }
        ensures { result ≡ enough true (rows_room self.now.n self.now.row_offsets.now self.now.cols.now) }
    {
        if self.row_offsets.len() < self.n + 1 {
            return false;
        }
        law::wide(self.row_offsets[self.n]) <= self.cols.len()
    }

    // The row offsets that are the pattern's own, and its columns: as many as the last row offset says. A longer list's rest is never shown.
    pub fn own(&self) -> (&'a [u32], &'a [u32])
        requires places { self.now.n < length self.now.row_offsets.now }
        requires columns { at self.now.row_offsets.now self.now.n ≤ length self.now.cols.now }
        ensures starts { result.0.now ≡ take (self.now.n + 1) self.now.row_offsets.now }
        ensures cols { result.1.now ≡ take (at self.now.row_offsets.now self.now.n) self.now.cols.now }
        ensures few { length result.1.now ≤ absent }
    {
        let blocks = law::wide(self.row_offsets[self.n]);
        (&self.row_offsets[..self.n + 1], &self.cols[..blocks])
    }
}
