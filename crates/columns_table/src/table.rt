// The table: its lists, lent together; its test, in one pass over its entries; its clearing, and the loading of a particle; the room for the columns.
// UNLOADED stands in a list that C lends: `column` reads it as an Option; what writes it, asks eight places at once or asks a list lent by &mut names it.
// A pass answers yes or no beside its work list `seen`, which is no value of the answer; its index names a place of two lists, as `Met` does.
ghost use Rattle.std.specs.Prelude.{◌≡◌, true, ◌+◌, ◌*◌, ◌≤◌, ◌<◌, leb, eqb, length, take};
ghost use Rattle.std.specs.List.{list_all};
ghost use Rattle.law.specs.Limit.{particles, columns, unloaded};
ghost use Rattle.law.specs.Every.{every};
ghost use Rattle.law.specs.Room.{enough};
ghost use Rattle.matrix_shape.specs.Rows.{at};
ghost use Rattle.columns_table.specs.Lent.{numbers_of, HasPlaces, is_numbered};
ghost use Rattle.columns_table.specs.Table.{column_is};
ghost use Rattle.columns_table.specs.Pass.{Met, Passed};
ghost use Rattle.columns_table.specs.Columns.{columns_need};
ghost use Rattle.columns_table.specs.Clearing.{emptied};
ghost use Rattle.columns_table.specs.Loading.{given, left, is_new, table_room, work, Ready};

// Each particle's mark, how many are loaded, and each particle's column or UNLOADED. Whatever is lent may stand here: a call tests it.
#[derive(Clone, Copy)]
pub struct Table<'a> {
    pub pinned: &'a [u8],
    pub loaded: usize,
    pub column_of: &'a [u32],
}

impl<'a> Table<'a> {
    // The number of a particle's column, if it is loaded.
    pub fn column(&self, p: usize) -> Option<usize>
        requires { p < length self.now.column_of.now }
        ensures { column_is (at self.now.column_of.now p) result }
    {
        let column = self.column_of[p];
        if column == law::UNLOADED {
            None
        } else {
            Some(law::wide(column))
        }
    }

    // Whether each particle has its mark and its place.
    #[tactic(auto, unfolding(law::specs::Room::enough, crate::specs::Loading::table_room))]
    pub fn has_room(&self, n: usize) -> bool
        ensures { result ≡ enough true (table_room n self.now.pinned.now self.now.column_of.now) }
    {
        (n <= self.pinned.len()) & (n <= self.column_of.len())
    }

    // Whether the floats of all columns have room. Their number may pass any machine word, so what a column needs divides the room.
    pub fn columns_fit(&self, n: usize, columns: &[f32]) -> bool
        requires { n ≤ particles }
        ensures { result ≡ leb (columns_need n self.now.loaded) (length columns.now) }
    {
        if n == 0 {
            return true;
        }
        self.loaded <= columns.len() / (4 * n)
    }

    // Whether the table numbers unpinned particles 0, 1, 2 up to its count, each once.
    pub fn is_numbered(&self, n: usize) -> bool
        requires few { n ≤ particles }
        requires held { HasPlaces n (numbers_of self.now) }
        ensures { result ≡ is_numbered n (numbers_of self.now) }
    {
        if law::COLUMNS < self.loaded {
            return false;
        }
        let mut seen = [0u32; law::COLUMNS];
        if !walk(n, self, &mut seen) {
            return false;
        }
        each_once(self.loaded, &seen)
    }
}

// The entries a..b, behind those before them. A fault ends the pass.
fn pass(a: usize, b: usize, table: &Table, seen: &mut [u32]) -> bool
    requires a_le_b { (a ≤ b) × (b ≤ particles) × (b ≤ length table.now.pinned.now) × (b ≤ length table.now.column_of.now) }
    requires loaded_le_columns { (table.now.loaded ≤ columns) × (table.now.loaded ≤ length seen.old)
        × Met table.now.pinned.now table.now.loaded table.now.column_of.now a seen.old }
    ensures { Passed table.now.pinned.now table.now.loaded table.now.column_of.now b result seen.new }
{
    for p in a..b {
        if let Some(c) = table.column(p) {
            if !((c < table.loaded) & (table.pinned[p] == 0)) {
                return false;
            }
            seen[c] = seen[c] + 1;
        }
    }
    true
}

// Whether none of the eight entries from p on is loaded. Most tables have few that are.
// `column_of[p..p + 8].iter().all(..)` proves too, but stops early: a bare table of 1,024 then takes 242 ns in place of 118.
fn bare(p: usize, column_of: &[u32]) -> bool
    requires { (p ≤ particles) × (p + 8 ≤ length column_of.now) }
    ensures { result ≡ every (λ k. eqb (at column_of.now k) unloaded) p (p + 8) }
{
    let mut ok = true;
    for k in p..p + 8 {
        ok = ok & (column_of[k] == law::UNLOADED);
    }
    ok
}

// Eight entries of the pass.
fn eight(p: usize, table: &Table, seen: &mut [u32]) -> bool
    requires p_bound { (p + 8 ≤ particles) × (p + 8 ≤ length table.now.pinned.now) × (p + 8 ≤ length table.now.column_of.now) }
    requires loaded_le_columns { (table.now.loaded ≤ columns) × (table.now.loaded ≤ length seen.old)
        × Met table.now.pinned.now table.now.loaded table.now.column_of.now p seen.old }
    ensures { Passed table.now.pinned.now table.now.loaded table.now.column_of.now (p + 8) result seen.new }
{
    if bare(p, table.column_of) {
        return true;
    }
    pass(p, p + 8, table, seen)
}

// All entries, eight at a time.
fn walk(n: usize, table: &Table, seen: &mut [u32]) -> bool
    requires n_le_particles { (n ≤ particles) × (n ≤ length table.now.pinned.now) × (n ≤ length table.now.column_of.now) }
    requires loaded_le_columns { (table.now.loaded ≤ columns) × (table.now.loaded ≤ length seen.old)
        × Met table.now.pinned.now table.now.loaded table.now.column_of.now 0 seen.old }
    ensures { Passed table.now.pinned.now table.now.loaded table.now.column_of.now n result seen.new }
{
    for k in 0..n / 8 {
        if !eight(8 * k, table, seen) {
            return false;
        }
    }
    pass(n / 8 * 8, n, table, seen)
}

fn each_once(loaded: usize, seen: &[u32]) -> bool
    requires { loaded ≤ length seen.now }
    ensures { result ≡ list_all (λ s. eqb s 1) (take loaded seen.now) }
{
    seen[..loaded].iter().all(|s| *s == 1)
}

// No particle is loaded.
pub fn clear(n: usize, column_of: &mut [u32])
    requires { n ≤ length column_of.old }
    ensures { column_of.new ≡ emptied n column_of.old }
{
    column_of[..n].fill(law::UNLOADED);
}

// Whether a particle is new, as far as the lists show it: no list is read past its end.
#[tactic(auto, unfolding(crate::specs::Loading::is_new))]
pub fn is_new(n: usize, pinned: &[u8], column_of: &[u32], particle: usize) -> bool
    ensures { result ≡ is_new n pinned.now column_of.now particle }
{
    if !((particle < n) & (particle < pinned.len()) & (particle < column_of.len())) {
        return false;
    }
    (pinned[particle] == 0) & (column_of[particle] == law::UNLOADED)
}

// A new particle has the next number. It answers how many are loaded then.
#[tactic(auto, unfolding(crate::specs::Loading::work))]
pub fn load(n: usize, pinned: &[u8], loaded: usize, particle: usize, column_of: &mut [u32]) -> usize
    requires { Ready (given n pinned.now loaded particle column_of.old) }
    ensures { left (Ok result) column_of.new ≡ work (given n pinned.now loaded particle column_of.old) }
{
    if !is_new(n, pinned, column_of, particle) {
        return loaded;
    }
    column_of[particle] = loaded as u32;
    loaded + 1
}
