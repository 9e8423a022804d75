// Stretches of lent lists, float by float: the inner loops of the direct solver.
ghost use Rattle.std.specs.Prelude.{◌≡◌, ◌+◌, ◌≤◌, length};
ghost use Rattle.flat_runs.specs.Run.{dot_run, take_run};

// The sum of m products, u's floats from a on with v's from b on, from +0.0, left to right.
pub fn dot(u: &[f32], a: usize, v: &[f32], b: usize, m: usize) -> f32
    requires { (a + m ≤ length u.now) × (b + m ≤ length v.now) }
    ensures { result ≡ dot_run u.now a v.now b m }
{
    let mut sum = 0.0;
    for (x, y) in u[a..a + m].iter().zip(&v[b..b + m]) {
        sum = sum + *x * *y;
    }
    sum
}

// m of u's floats from a on, times t, taken from y's from b on. A loop by c: an adapter of iter_mut keeps only the length of what it wrote.
pub fn take(u: &[f32], a: usize, b: usize, m: usize, t: f32, y: &mut [f32])
    requires { (a + m ≤ length u.now) × (b + m ≤ length y.old) }
    ensures { y.new ≡ take_run u.now a b m t y.old }
{
    for c in 0..m {
        y[b + c] = y[b + c] - u[a + c] * t;
    }
}
