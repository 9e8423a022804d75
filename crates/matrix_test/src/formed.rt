// Whether a pattern is well formed: the row starts, and then rows and mirrors in one walk, which reads only what the row starts have shown to be there.
ghost use Rattle.std.specs.Prelude.{◌≡◌, ◌≤◌, ◌<◌, length};
ghost use Rattle.law.specs.Every.{every};
ghost use Rattle.law.specs.Limit.{particles};
ghost use Rattle.matrix_shape.specs.Formed.{rise_ok, starts_ok, well_formed};
ghost use Rattle.matrix_shape.specs.Rows.{at, Held};
ghost use Rattle.matrix_shape.specs.Phases.{Spread};
ghost use Rattle.matrix_walk.specs.Cursors.{walk_ok};

use matrix_shape::pattern::Pattern;
use matrix_walk::rows;

// A loop by r, and no `all`, which would stop at the first that falls: `&` alone makes a vector loop.
fn rises(n: usize, row_offsets: &[u32]) -> bool
    requires { n < length row_offsets.now }
    ensures { result ≡ every (rise_ok (at row_offsets.now)) 0 n }
{
    let mut ok = true;
    for r in 0..n {
        ok = ok & (row_offsets[r] <= row_offsets[r + 1]);
    }
    ok
}

fn starts_ok(n: usize, m: usize, row_offsets: &[u32]) -> bool
    requires { n < length row_offsets.now }
    ensures { result ≡ starts_ok n m (at row_offsets.now) }
{
    (row_offsets[0] == 0) & rises(n, row_offsets) & (law::wide(row_offsets[n]) == m)
}

// The walk of a pattern of up to N rows, whose cursors stand in an array.
fn walk_in<const N: usize>(pattern: &Pattern) -> bool
    requires { (pattern.now.n ≤ N) × (N ≤ particles) × Spread pattern.now.n pattern.now.row_offsets.now pattern.now.cols.now pattern.now.diagonal.now }
    ensures { result ≡ walk_ok pattern.now.n (at pattern.now.row_offsets.now pattern.now.n) (at pattern.now.row_offsets.now) (at pattern.now.cols.now) (at pattern.now.diagonal.now) }
{
    let mut next = [0u32; N];
    rows::walk_ok(pattern, &mut next)
}

// Whether the pattern is well formed and has m blocks. An array of 1,024 cursors would take longer to clear than a small pattern's walk.
pub fn well_formed(pattern: &Pattern, m: usize) -> bool
    requires { (pattern.now.n ≤ particles) × Held pattern.now.n m pattern.now.row_offsets.now pattern.now.cols.now pattern.now.diagonal.now }
    ensures { result ≡ well_formed pattern.now.n m (at pattern.now.row_offsets.now) (at pattern.now.cols.now) (at pattern.now.diagonal.now) }
{
    if !starts_ok(pattern.n, m, pattern.row_offsets) {
        return false;
    }
    if pattern.n <= 64 {
        walk_in::<64>(pattern)
    } else {
        walk_in::<1024>(pattern)
    }
}
