// Whether given pairs are no ground for refusal.
ghost use Rattle.std.specs.Prelude.{◌≡◌, ◌*◌, ◌≤◌, length};
ghost use Rattle.law.specs.Every.{every};
ghost use Rattle.matrix_pairs.specs.Pairs.{pair_ok, pair_ok_at};

// A pair is no ground for refusal if its numbers are equal, or both below n.
fn pair_ok(n: usize, a: u32, b: u32) -> bool
    ensures { result ≡ pair_ok n a b }
{
    (a == b) | ((law::wide(a) < n) & (law::wide(b) < n))
}

// A loop by i, and no `all`, which would stop at the first that is not: `&` alone makes a vector loop.
pub fn pairs_ok(n: usize, count: usize, pairs: &[u32]) -> bool
    requires { 2 * count ≤ length pairs.now }
    ensures { result ≡ every (pair_ok_at n pairs.now) 0 count }
{
    let mut ok = true;
    for i in 0..count {
        ok = ok & pair_ok(n, pairs[2 * i], pairs[2 * i + 1]);
    }
    ok
}
