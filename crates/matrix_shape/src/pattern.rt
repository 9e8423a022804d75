// A pattern as a call is handed it: its lists, which always come together.
ghost use Rattle.std.specs.Prelude.{◌≡◌, true, ◌<◌, length};
ghost use Rattle.law.specs.Room.{enough};
ghost use Rattle.law.specs.Wide.{Widened};
ghost use Rattle.matrix_shape.specs.Given.{blocks_room};
ghost use Rattle.matrix_shape.specs.Rows.{at};
ghost use Rattle.matrix_shape.specs.Shape.{lists, places_of};

// n block rows; row r's slots start at row_offsets[r] and end where the next row's start; each slot has its column, each row its diagonal's slot.
// Whatever is lent may stand here: a call tests it.
#[derive(Clone, Copy)]
pub struct Pattern<'a> {
    pub n: usize,
    pub row_offsets: &'a [u32],
    pub cols: &'a [u32],
    pub diagonal: &'a [u32],
}

impl<'a> Pattern<'a> {
    // The last row offset: how many blocks there are.
    pub fn slots(&self) -> usize
        requires { self.now.n < length self.now.row_offsets.now }
        ensures { Widened (at self.now.row_offsets.now self.now.n) result }
    {
        law::wide(self.row_offsets[self.n])
    }

    // Whether the lists are as long as their numbers say.
    #[tactic(auto, unfolding(law::specs::Room::enough, crate::specs::Given::pattern_room))]
    pub fn has_room(&self) -> bool
        ensures { result ≡ enough true (places_of (lists self.now)) }
    {
        if self.row_offsets.len() <= self.n {
            return false;
        }
        (self.slots() <= self.cols.len()) & (self.n <= self.diagonal.len())
    }

    // Whether the blocks' values are as many as the pattern says.
    #[tactic(auto, unfolding(law::specs::Room::enough, crate::specs::Given::blocks_room))]
    pub fn blocks_fit(&self, blocks: &[f32]) -> bool
        requires { self.now.n < length self.now.row_offsets.now }
        ensures { result ≡ enough true (blocks_room self.now.n self.now.row_offsets.now blocks.now) }
    {
        4 * self.slots() <= blocks.len()
    }
}
