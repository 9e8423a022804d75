// In-place steps over lent vectors of 2n floats. What these require, the doors have tested.
ghost use Rattle.std.specs.Prelude.{◌≡◌, ◌+◌, ◌*◌, ◌≤◌, ◌<◌, length};
ghost use Rattle.law.specs.Mix.{mix};
ghost use Rattle.plane.specs.Plane.{add_of, sub_of, scale_of};
ghost use Rattle.plane.specs.Lent.{vector_at};
ghost use Rattle.vectors.specs.Multiples.{advanced_at, retreated_at, redirected_at, scaled_at, preconditioned_at};

use crate::inner::{block_at, each, vector_at};

// x + d * alpha, in place.
pub fn advance(n: usize, alpha: f32, d: &[f32], x: &mut [f32])
    requires { (2 * n ≤ length d.now) × (2 * n ≤ length x.old) }
    ensures { x.new ≡ mix 2 n (advanced_at alpha d.now x.old) x.old }
{
    each(
        n,
        x,
        |k, v|
            requires { 2 * k + 1 < length d.now }
            ensures { result ≡ add_of v (scale_of (vector_at d.entry.now k) alpha) }
        { plane::add(v, plane::scale(vector_at(d, k), alpha)) },
    );
}

// r - d * alpha, in place.
pub fn retreat(n: usize, alpha: f32, d: &[f32], r: &mut [f32])
    requires { (2 * n ≤ length d.now) × (2 * n ≤ length r.old) }
    ensures { r.new ≡ mix 2 n (retreated_at alpha d.now r.old) r.old }
{
    each(
        n,
        r,
        |k, v|
            requires { 2 * k + 1 < length d.now }
            ensures { result ≡ sub_of v (scale_of (vector_at d.entry.now k) alpha) }
        { plane::sub(v, plane::scale(vector_at(d, k), alpha)) },
    );
}

// z + d * beta, in place in d.
pub fn redirect(n: usize, beta: f32, z: &[f32], d: &mut [f32])
    requires { (2 * n ≤ length z.now) × (2 * n ≤ length d.old) }
    ensures { d.new ≡ mix 2 n (redirected_at beta z.now d.old) d.old }
{
    each(
        n,
        d,
        |k, v|
            requires { 2 * k + 1 < length z.now }
            ensures { result ≡ add_of (vector_at z.entry.now k) (scale_of v beta) }
        { plane::add(vector_at(z, k), plane::scale(v, beta)) },
    );
}

pub fn scale_all(n: usize, alpha: f32, x: &mut [f32])
    requires { 2 * n ≤ length x.old }
    ensures { x.new ≡ mix 2 n (scaled_at alpha x.old) x.old }
{
    each(
        n,
        x,
        |_, v|
            ensures { result ≡ scale_of v alpha }
        { plane::scale(v, alpha) },
    );
}

// Each particle's block times its part of r.
pub fn precondition(n: usize, p: &[f32], r: &[f32], z: &mut [f32])
    requires { (4 * n ≤ length p.now) × (2 * n ≤ length r.now) × (2 * n ≤ length z.old) }
    ensures { z.new ≡ mix 2 n (preconditioned_at p.now r.now) z.old }
{
    each(
        n,
        z,
        |k, _|
            requires { (4 * k + 3 < length p.now) × (2 * k + 1 < length r.now) }
            ensures { result ≡ preconditioned_at p.entry.now r.entry.now k }
        { plane::times(block_at(p, k), vector_at(r, k)) },
    );
}
