// Where a block stands: the slot of a row that has a column. Rows are short, so the search is a few steps in a row without a branch on what is read.
ghost use Rattle.std.specs.Prelude.{◌≡◌, ◌+◌, ◌≤◌, ◌<◌, eqb, length, get_or};
ghost use Rattle.law.specs.Find.{find};
ghost use Rattle.law.specs.Limit.{absent};
ghost use Rattle.matrix_shape.specs.Rows.{at};
ghost use Rattle.matrix_shape.specs.Index.{Slots, Line, index_of};
ghost use Rattle.matrix_shape.specs.Halving.{halved};
ghost use Rattle.matrix_shape.specs.Search.{search_of};

// Of the slots from `low` on, `size` of them, where the half starts that can hold the column. It has `size - size / 2` slots.
fn one(cols: &[u32], low: usize, size: usize, col: u32) -> usize
    requires { (0 < size) × (low + size ≤ length cols.now) }
    ensures { result ≡ halved (at cols.now) col 1 low size }
{
    let mid = low + size / 2;
    if cols[mid] <= col {
        return mid;
    }
    low
}

// Two such steps, which leave one of four slots.
fn two(cols: &[u32], low: usize, size: usize, col: u32) -> usize
    requires { (0 < size) × (low + size ≤ length cols.now) }
    ensures { result ≡ halved (at cols.now) col 2 low size }
{
    let next = one(cols, low, size, col);
    one(cols, next, size - size / 2, col)
}

// Four, which leave one of sixteen.
fn four(cols: &[u32], low: usize, size: usize, col: u32) -> usize
    requires { (0 < size) × (low + size ≤ length cols.now) }
    ensures { result ≡ halved (at cols.now) col 4 low size }
{
    let half = size - size / 2;
    let next = two(cols, low, size, col);
    two(cols, next, half - half / 2, col)
}

// The one of up to sixteen slots that can hold the column.
fn near(cols: &[u32], low: usize, size: usize, col: u32) -> usize
    requires { (0 < size) × (size ≤ 16) × (low + size ≤ length cols.now) }
    ensures { result ≡ halved (at cols.now) col 4 low size }
{
    if size <= 4 {
        return two(cols, low, size, col);
    }
    four(cols, low, size, col)
}

// A search of the slots a..b by halves, whatever their columns: the slot that is left, if it has the column; law::ABSENT if not.
pub fn searched(cols: &[u32], a: usize, b: usize, col: u32) -> u32
    requires { (b ≤ length cols.now) × (b ≤ absent) }
    ensures { result ≡ search_of (at cols.now) a b col }
{
    if b <= a {
        return law::ABSENT;
    }
    let mut low = a;
    let mut size = b - a;
    while 16 < size {
        low = one(cols, low, size, col);
        size = size - size / 2;
    }
    let slot = near(cols, low, size, col);
    if cols[slot] != col {
        return law::ABSENT;
    }
    slot as u32
}

// Of the slots a..b the one that has the column; law::ABSENT where none has.
pub fn slot_of(cols: &[u32], a: usize, b: usize, col: u32) -> u32
    requires { Slots cols.now a b }
    ensures { result ≡ find (λ k. eqb (get_or cols.now k 0) col) a b absent }
{
    searched(cols, a, b, col)
}

// The slot of row `row` that has the column; law::ABSENT where none has.
pub fn block_index(row_offsets: &[u32], cols: &[u32], row: usize, col: u32) -> u32
    requires { Line row_offsets.now cols.now row }
    ensures { result ≡ index_of (at row_offsets.now) (at cols.now) row col }
{
    let a = law::wide(row_offsets[row]);
    let b = law::wide(row_offsets[row + 1]);
    slot_of(cols, a, b, col)
}
