// The entries of a response, one after the other: those at pinned particles are skipped, and repeated particles add up.
// The marks of the pinned stand beside the entries, as the calls are lent them: that entries fit n and the marks is a fact of a call, not of the type.
// The loops go by number: an index reads a particle, its mark and its gradient's two floats.
ghost use Rattle.std.specs.Prelude.{◌≡◌, true, ◌*◌, ◌≤◌, ◌<◌, length};
ghost use Rattle.law.specs.Limit.{entries};
ghost use Rattle.law.specs.Room.{enough};
ghost use Rattle.matrix_shape.specs.Rows.{at};
ghost use Rattle.step_entries.specs.Entries.{free, load_step, gain_step, gain_of};
ghost use Rattle.step_entries.specs.Lent.{entered_of, room_of, all_below, some_free, load_of, gain_sum, IsEntered};

// The first `count` of the particles and of the gradients, two floats to an entry. Whatever is lent may stand here: a call tests it.
#[derive(Clone, Copy)]
pub struct Entries<'a> {
    pub count: usize,
    pub particles: &'a [u32],
    pub gradients: &'a [f32],
}

impl<'a> Entries<'a> {
    // Whether the marks are as many as particles, and the lists as long as the number of entries says.
    #[tactic(auto, unfolding(law::specs::Room::enough, crate::specs::Entries::entries_room))]
    pub fn has_room(&self, n: usize, pinned: &[u8]) -> bool
        requires { self.now.count ≤ entries }
        ensures { result ≡ enough true (room_of n pinned.now (entered_of self.now)) }
    {
        (n <= pinned.len())
            & (self.count <= self.particles.len())
            & (2 * self.count <= self.gradients.len())
    }

    // Whether every entry's particle is below n.
    pub fn all_below(&self, n: usize) -> bool
        requires { self.now.count ≤ length self.now.particles.now }
        ensures { result ≡ all_below n (entered_of self.now) }
    {
        self.particles[..self.count]
            .iter()
            .all(|p| law::wide(*p) < n)
    }

    #[tactic(auto, unfolding(crate::specs::Entries::free))]
    fn is_free(&self, pinned: &[u8], e: usize) -> bool
        requires { (e < length self.now.particles.now) × (at self.now.particles.now e < length pinned.now) }
        ensures { result ≡ free pinned.now self.now.particles.now e }
    {
        let p = law::wide(self.particles[e]);
        pinned[p] == 0
    }

    #[tactic(auto, unfolding(crate::specs::Entries::any_free), using(law::proofs::Every::some_none, law::proofs::Every::some_more))]
    pub fn any_free(&self, n: usize, pinned: &[u8]) -> bool
        requires { IsEntered n pinned.now (entered_of self.now) }
        ensures { result ≡ some_free pinned.now (entered_of self.now) }
    {
        let mut any = false;
        for e in 0..self.count {
            any = any | self.is_free(pinned, e);
        }
        any
    }

    #[tactic(auto, unfolding(crate::specs::Entries::load_step))]
    fn load_one(&self, n: usize, pinned: &[u8], e: usize, rhs: &mut [f32])
        requires entries { IsEntered n pinned.now (entered_of self.now) }
        requires e_lt_count { (e < self.now.count) × (2 * n ≤ length rhs.old) }
        ensures { rhs.new ≡ load_step pinned.now self.now.particles.now self.now.gradients.now e rhs.old }
    {
        if self.is_free(pinned, e) {
            let p = law::wide(self.particles[e]);
            let gradient = vectors::inner::vector_at(self.gradients, e);
            let sum = plane::add(vectors::inner::vector_at(rhs, p), gradient);
            vectors::inner::set_vector(rhs, p, sum);
        }
    }

    // Each free entry's gradient, added to its particle's part of the right-hand side.
    #[tactic(auto, unfolding(crate::specs::Entries::loaded), using(law::proofs::Loop::over_none, law::proofs::Loop::over_more))]
    pub fn load(&self, n: usize, pinned: &[u8], rhs: &mut [f32])
        requires entries { IsEntered n pinned.now (entered_of self.now) }
        requires n_in_bounds { 2 * n ≤ length rhs.old }
        ensures { rhs.new ≡ load_of pinned.now (entered_of self.now) rhs.old }
    {
        for e in 0..self.count {
            self.load_one(n, pinned, e, rhs);
        }
    }

    #[tactic(auto, unfolding(crate::specs::Entries::gain_step))]
    fn gain_one(&self, n: usize, pinned: &[u8], out: &[f32], e: usize, sum: f32) -> f32
        requires entries { IsEntered n pinned.now (entered_of self.now) }
        requires e_lt_count { (e < self.now.count) × (2 * n ≤ length out.now) }
        ensures { result ≡ gain_step pinned.now self.now.particles.now self.now.gradients.now out.now e sum }
    {
        if !self.is_free(pinned, e) {
            return sum;
        }
        let p = law::wide(self.particles[e]);
        sum + plane::dot(
            vectors::inner::vector_at(self.gradients, e),
            vectors::inner::vector_at(out, p),
        )
    }

    // The gradients of the free entries times the solution.
    #[tactic(auto, unfolding(crate::specs::Entries::raw_gain), using(law::proofs::Loop::over_none, law::proofs::Loop::over_more))]
    pub fn raw_gain(&self, n: usize, pinned: &[u8], out: &[f32]) -> f32
        requires entries { IsEntered n pinned.now (entered_of self.now) }
        requires n_in_bounds { 2 * n ≤ length out.now }
        ensures { result ≡ gain_sum pinned.now (entered_of self.now) out.now }
    {
        let mut sum = 0.0;
        for e in 0..self.count {
            sum = self.gain_one(n, pinned, out, e, sum);
        }
        sum
    }
}

// A sum that isn't above zero, NaN included, gains +0.0. `max` says of neither NaN nor -0.0 what it gives.
#[tactic(auto, unfolding(crate::specs::Entries::gain_of))]
pub fn gain_of(raw: f32) -> f32
    ensures { result ≡ gain_of raw }
{
    if raw > 0.0 { raw } else { 0.0 }
}
