// Vectors and blocks in lent slices: two floats to a particle, four to a block. What these require, the doors have tested.
ghost use Rattle.std.specs.Prelude.{◌≡◌, ℕ, ◌+◌, ◌*◌, ◌≤◌, ◌<◌, length};
ghost use Rattle.law.specs.Mix.{mix};
ghost use Rattle.plane.specs.Plane.{sub_of, zero_of};
ghost use Rattle.plane.specs.Lent.{vector_at, block_at, with_vector, with_block};
ghost use Rattle.vectors.specs.Whole.{Each, dot_all, lack_at};

use plane::{Block, Vector};

pub fn vector_at(s: &[f32], k: usize) -> Vector
    requires { 2 * k + 1 < length s.now }
    ensures { result ≡ vector_at s.now k }
{
    let j = 2 * k;
    [s[j], s[j + 1]]
}

pub fn set_vector(s: &mut [f32], k: usize, v: Vector)
    requires { 2 * k + 1 < length s.old }
    ensures { s.new ≡ with_vector s.old k v }
{
    let j = 2 * k;
    s[j] = v[0];
    s[j + 1] = v[1];
}

pub fn block_at(s: &[f32], k: usize) -> Block
    requires { 4 * k + 3 < length s.now }
    ensures { result ≡ block_at s.now k }
{
    let j = 4 * k;
    [[s[j], s[j + 1]], [s[j + 2], s[j + 3]]]
}

pub fn set_block(s: &mut [f32], k: usize, m: Block)
    requires { 4 * k + 3 < length s.old }
    ensures { s.new ≡ with_block s.old k m }
{
    let j = 4 * k;
    s[j] = m[0][0];
    s[j + 1] = m[0][1];
    s[j + 2] = m[1][0];
    s[j + 3] = m[1][1];
}

// Every particle's part of x goes through `part`. A loop by k: chunks_mut and adapters of iter_mut keep only the length of what they wrote.
pub fn each<F: Fn(usize, Vector) -> Vector>(n: usize, x: &mut [f32], part: F)
    requires room { 2 * n ≤ length x.old }
    requires takes { (k : ℕ) (v : _) → k < n → F.pre part k v }
    ensures { Each (F.post part) n x.old x.new }
{
    for k in 0..n {
        let v = part(k, vector_at(x, k));
        set_vector(x, k, v);
    }
}

// The sum over the particles of u's part times v's, from +0.0, left to right. A loop by k: a fold's closure would need both clauses again.
pub fn dot_all(n: usize, u: &[f32], v: &[f32]) -> f32
    requires { (2 * n ≤ length u.now) × (2 * n ≤ length v.now) }
    ensures { result ≡ dot_all n u.now v.now }
{
    let mut sum = 0.0;
    for k in 0..n {
        sum = sum + plane::dot(vector_at(u, k), vector_at(v, k));
    }
    sum
}

// b - r, in place in r.
pub fn lack(n: usize, b: &[f32], r: &mut [f32])
    requires { (2 * n ≤ length b.now) × (2 * n ≤ length r.old) }
    ensures { r.new ≡ mix 2 n (lack_at b.now r.old) r.old }
{
    each(
        n,
        r,
        |k, v|
            requires { 2 * k + 1 < length b.now }
            ensures { result ≡ sub_of (vector_at b.entry.now k) v }
        { plane::sub(vector_at(b, k), v) },
    );
}

// Part by part: the library's copy asks C for a memmove, which the archives do without.
pub fn copy(n: usize, s: &[f32], t: &mut [f32])
    requires { (2 * n ≤ length s.now) × (2 * n ≤ length t.old) }
    ensures { t.new ≡ mix 2 n (vector_at s.now) t.old }
{
    each(
        n,
        t,
        |k, _|
            requires { 2 * k + 1 < length s.now }
            ensures { result ≡ vector_at s.entry.now k }
        { vector_at(s, k) },
    );
}

pub fn clear(n: usize, x: &mut [f32])
    requires { 2 * n ≤ length x.old }
    ensures { x.new ≡ mix 2 n (λ k. zero_of) x.old }
{
    x[..2 * n].fill(0.0);
}
