// The direct solve with a plan, soft_fem_skyline.rs's `solve`. What these require, the doors have tested.
ghost use Rattle.std.specs.Prelude.{◌≡◌, ℕ, ◌+◌, ◌*◌, ◌≤◌, ◌<◌, length};
ghost use Rattle.law.specs.Mix.{mix};
ghost use Rattle.plane.specs.Lent.{vector_at};
ghost use Rattle.matrix_shape.specs.Rows.{at};
ghost use Rattle.plan_fits.specs.Layout.{IsPlan, plan_lists};
ghost use Rattle.factor_substitution.specs.Solve.{left, solved_of};

use plan_fits::plan::Plan;

// Part i of `out` is v's part which[i].
fn gather(n: usize, which: &[u32], v: &[f32], out: &mut [f32])
    requires n_in_bounds { (n ≤ length which.now) × (2 * n ≤ length v.now) × (2 * n ≤ length out.old) }
    requires by_index { (i : ℕ) → i < n → at which.now i < n }
    ensures { out.new ≡ mix 2 n (λ i. vector_at v.now (at which.now i)) out.old }
{
    vectors::inner::each(
        n,
        out,
        |i, _|
            requires { (i < length which.now) × (2 * at which.now i + 1 < length v.now) }
            ensures { result ≡ vector_at v.entry.now (at which.entry.now i) }
        { vectors::inner::vector_at(v, law::wide(which[i])) },
    );
}

// b by positions into the scratch, the two passes there, and back by particles into x.
pub fn solve(n: usize, plan: &Plan, values: &[f32], b: &[f32], x: &mut [f32], scratch: &mut [f32])
    requires plan { IsPlan n (plan_lists plan.now) }
    requires n_in_bounds { (at plan.now.row_start.now (2 * n) ≤ length values.now) × (2 * n ≤ length b.now) }
    requires x_len { (length x.old ≡ 2 * n) × (length scratch.old ≡ 2 * n) }
    ensures { left x.new scratch.new ≡ solved_of n (at plan.now.perm.now) (at plan.now.inv_perm.now)
        (at plan.now.first.now) (at plan.now.row_start.now) values.now b.now }
{
    let m = 2 * n;
    gather(n, plan.perm, b, scratch);
    factor_passes::passes::forward(m, plan, values, scratch);
    factor_passes::passes::backward(m, plan, values, scratch);
    gather(n, plan.inv_perm, scratch, x);
    vectors::inner::clear(n, scratch);
}
