// A plan as a call is handed it: its lists, which always come together, whether they have room, and how long the factor is.
ghost use Rattle.std.specs.Prelude.{◌≡◌, true, ◌*◌, ◌≤◌, ◌<◌, length};
ghost use Rattle.law.specs.Limit.{particles};
ghost use Rattle.law.specs.Room.{enough};
ghost use Rattle.plan_fits.specs.Layout.{plan_lists, room_of, length_of};

// The particle at each position, each particle's position, each row's first column and where the row starts.
// Whatever is lent may stand here: a call tests it.
#[derive(Clone, Copy)]
pub struct Plan<'a> {
    pub perm: &'a [u32],
    pub inv_perm: &'a [u32],
    pub first: &'a [u32],
    pub row_start: &'a [u32],
}

impl<'a> Plan<'a> {
    // Whether the lists are as long as n particles need.
    #[tactic(auto, unfolding(law::specs::Room::enough, crate::specs::Given::plan_room))]
    pub fn has_room(&self, n: usize) -> bool
        requires { n ≤ particles }
        ensures { result ≡ enough true (room_of n (plan_lists self.now)) }
    {
        let m = 2 * n;
        (n <= self.perm.len())
            & (n <= self.inv_perm.len())
            & (m <= self.first.len())
            & (m + 1 <= self.row_start.len())
    }

    // The last row start.
    #[tactic(auto, unfolding(crate::specs::Given::factor_length))]
    pub fn factor_len(&self, n: usize) -> usize
        requires { (n ≤ particles) × (2 * n < length self.now.row_start.now) }
        ensures { result ≡ length_of n (plan_lists self.now) }
    {
        law::wide(self.row_start[2 * n])
    }
}
