// The envelope's rows. A place has two, and both start at the leftmost block that its particle stores.
// Where a loop goes by a place's number, the number stands in what it works out: its rows are 2i and 2i + 1.
ghost use Rattle.std.specs.Prelude.{◌≡◌, ℕ, ◌+◌, ◌*◌, ◌≤◌, ◌<◌, length};
ghost use Rattle.law.specs.Gather.{table};
ghost use Rattle.law.specs.Limit.{particles};
ghost use Rattle.matrix_shape.specs.Rows.{at};
ghost use Rattle.order_definition.specs.Keys.{Below};
ghost use Rattle.plan_layout.specs.Leftmost.{along_row, Started};
ghost use Rattle.plan_layout.specs.Starts.{start_at};
ghost use Rattle.plan_layout.specs.Ordering.{block_at, col_at};

use crate::ordered::Ordered;

// The least of b and the places of a row's particles.
fn leftmost(row: &[u32], inverse: &[u32], b: usize) -> usize
    requires { Below (length inverse.now) row.now }
    ensures { result ≡ along_row (at inverse.now) b row.now }
{
    let mut least = b;
    for c in row {
        least = least.min(law::wide(inverse[law::wide(*c)]));
    }
    least
}

// The block column where the rows of place i start.
fn first_block(ordered: &Ordered, i: usize) -> usize
    requires { i < ordered.now.graph.n }
    ensures { Started (block_at ordered.now i) i result }
{
    let v = law::wide(ordered.order[i]);
    leftmost(ordered.graph.row(v), ordered.inverse, i)
}

// How long the envelope is.
pub fn envelope(ordered: &Ordered) -> usize
    ensures { result ≡ start_at (col_at ordered.now) (2 * ordered.now.graph.n) }
{
    let mut len: usize = 0;
    for i in 0..ordered.graph.n {
        let b = first_block(ordered, i);
        len = len + (4 * i - 4 * b + 3);
    }
    len
}

// The column where each row starts.
pub fn fill_first(ordered: &Ordered, first: &mut [u32])
    requires { length first.old ≡ 2 * ordered.now.graph.n }
    ensures { first.new ≡ table (col_at ordered.now) (2 * ordered.now.graph.n) }
{
    for i in 0..ordered.graph.n {
        // The cast is proved to fit, as those below are; try_from would answer an error that can't be.
        let col = (2 * first_block(ordered, i)) as u32;
        first[2 * i] = col;
        first[2 * i + 1] = col;
    }
}

// The place where each row starts, and behind them the envelope's length.
pub fn fill_starts(first: &[u32], row_start: &mut [u32])
    requires row_start_len { (length row_start.old ≡ length first.now + 1) × (length first.now ≤ 2 * particles) }
    requires by_index { (r : ℕ) → r < length first.now → at first.now r ≤ r }
    ensures { row_start.new ≡ table (start_at (at first.now)) (length first.now + 1) }
{
    let mut next: u32 = 0;
    for (r, f) in first.iter().enumerate() {
        row_start[r] = next;
        next = next + (r as u32 - f + 1);
    }
    row_start[first.len()] = next;
}
