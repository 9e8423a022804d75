// The walk over the rows. Each row's cursor starts behind its diagonal; a block below the diagonal must meet its mirror at the cursor of its column's
// row, which then goes on by one.
ghost use Rattle.std.specs.Prelude.{◌≡◌, ◌≤◌, ◌<◌, length};
ghost use Rattle.law.specs.Every.{every};
ghost use Rattle.matrix_shape.specs.Formed.{home_ok};
ghost use Rattle.matrix_shape.specs.Rows.{at};
ghost use Rattle.matrix_walk.specs.Cursors.{meet_ok, end_ok, walk_ok};
ghost use Rattle.matrix_walk.specs.Walk.{Lent, Lows, Paired, Lined};

use matrix_shape::pattern::Pattern;

// Slot k is one of a..b and has the column r.
fn home_ok(cols: &[u32], a: usize, b: usize, k: usize, r: usize) -> bool
    requires { b ≤ length cols.now }
    ensures { result ≡ home_ok (at cols.now) a b k r }
{
    if k < a {
        return false;
    }
    if b <= k {
        return false;
    }
    law::wide(cols[k]) == r
}

// The slot is one of the first m and has the column r.
fn meet_ok(cols: &[u32], m: usize, slot: usize, r: usize) -> bool
    requires { m ≤ length cols.now }
    ensures { result ≡ meet_ok m (at cols.now) slot r }
{
    if m <= slot {
        return false;
    }
    law::wide(cols[slot]) == r
}

// The slots a..b of row r before its diagonal's, from the last to the first, so that one comparison says of a column that it is below
// the diagonal and below those behind it. Each block meets its mirror.
fn lower_ok(m: usize, cols: &[u32], a: usize, b: usize, r: usize, next: &mut [u32]) -> bool
    requires { Lows m cols.now a b r next.old }
    ensures { Paired m cols.now a b r next.old next.new result }
{
    let mut ceiling = r;
    for k in (a..b).rev() {
        let q = law::wide(cols[k]);
        if ceiling <= q {
            return false;
        }
        let slot = law::wide(next[q]);
        if !meet_ok(cols, m, slot, r) {
            return false;
        }
        next[q] = (slot + 1) as u32;
        ceiling = q;
    }
    true
}

// The rows up to the first that fails. A loop by r: a row has its number, two starts and a cursor.
fn lines_ok(pattern: &Pattern, next: &mut [u32]) -> bool
    requires { Lent pattern.now.n (at pattern.now.row_offsets.now pattern.now.n) pattern.now.row_offsets.now pattern.now.cols.now pattern.now.diagonal.now next.old }
    ensures { Lined pattern.now.n (at pattern.now.row_offsets.now pattern.now.n) pattern.now.row_offsets.now pattern.now.cols.now pattern.now.diagonal.now next.new result }
{
    let m = pattern.slots();
    for r in 0..pattern.n {
        let a = law::wide(pattern.row_offsets[r]);
        let b = law::wide(pattern.row_offsets[r + 1]);
        let k = law::wide(pattern.diagonal[r]);
        if !home_ok(pattern.cols, a, b, k, r) {
            return false;
        }
        if !lower_ok(m, pattern.cols, a, k, r, next) {
            return false;
        }
        next[r] = (k + 1) as u32;
    }
    true
}

// Every cursor has come to its row's end. No `all`, which would stop at the first that has not: `&` alone makes a vector loop.
fn ends_ok(n: usize, row_offsets: &[u32], next: &[u32]) -> bool
    requires { (n < length row_offsets.now) × (n ≤ length next.now) }
    ensures { result ≡ every (end_ok (at next.now) (at row_offsets.now)) 0 n }
{
    let mut ok = true;
    for (cursor, end) in next[..n].iter().zip(&row_offsets[1..n + 1]) {
        ok = ok & (*cursor == *end);
    }
    ok
}

// Whether rows and mirrors are as they are to be, once the row starts are. `next` lends the cursors a place.
pub fn walk_ok(pattern: &Pattern, next: &mut [u32]) -> bool
    requires { Lent pattern.now.n (at pattern.now.row_offsets.now pattern.now.n) pattern.now.row_offsets.now pattern.now.cols.now pattern.now.diagonal.now next.old }
    ensures { result ≡ walk_ok pattern.now.n (at pattern.now.row_offsets.now pattern.now.n) (at pattern.now.row_offsets.now) (at pattern.now.cols.now) (at pattern.now.diagonal.now) }
{
    lines_ok(pattern, next) && ends_ok(pattern.n, pattern.row_offsets, next)
}
