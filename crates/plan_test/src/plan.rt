// Whether a plan's lists keep its rules, in phases: order, inverse and first columns, then row starts. Each reads only what is known to be there.
// The loops gather with `&` and go to their end: a test that stops at the first fault (`all`) is a branch for each entry, and the whole can't run in vectors.
ghost use Rattle.std.specs.Prelude.{◌≡◌, ◌+◌, ◌*◌, ◌≤◌, ◌<◌, length};
ghost use Rattle.law.specs.Every.{every};
ghost use Rattle.law.specs.Limit.{particles};
ghost use Rattle.matrix_shape.specs.Rows.{at};
ghost use Rattle.plan_fits.specs.Fits.{back_ok, undo_ok, twins_ok, firsts_ok};
ghost use Rattle.plan_fits.specs.Layout.{IsLaid, is_planned, plan_lists};
ghost use Rattle.plan_fits.specs.Lists.{Lows};
ghost use Rattle.plan_test.specs.Quick.{step_ok};

use plan_fits::plan::Plan;

// What `a` has at i is below n, and `b` leads from there back to i.
#[tactic(auto, unfolding(plan_fits::specs::Fits::back_ok))]
fn back_ok(n: usize, a: &[u32], b: &[u32], i: usize) -> bool
    requires { (i < length a.now) × (n ≤ length b.now) }
    ensures { result ≡ back_ok n (at a.now) (at b.now) i }
{
    let q = law::wide(a[i]);
    (q < n) && (law::wide(b[q]) == i)
}

#[tactic(auto, unfolding(plan_fits::specs::Fits::undo_ok), using(law::proofs::Every::every_none, law::proofs::Every::every_more))]
fn undoes(n: usize, a: &[u32], b: &[u32]) -> bool
    requires { (n ≤ length a.now) × (n ≤ length b.now) }
    ensures { result ≡ undo_ok n (at a.now) (at b.now) }
{
    let mut ok = true;
    for i in 0..n {
        ok = ok & back_ok(n, a, b, i);
    }
    ok
}

// Both rows of position i start at the same even column, at most 2i.
#[tactic(auto, unfolding(plan_fits::specs::Fits::twins_ok))]
fn twins_ok(first: &[u32], i: usize) -> bool
    requires { (i < particles) × (2 * i + 1 < length first.now) }
    ensures { result ≡ twins_ok (at first.now) i }
{
    let row = 2 * i;
    let a = first[row];
    let b = first[row + 1];
    (a == b) & (a % 2 == 0) & (a <= row as u32)
}

#[tactic(auto, unfolding(plan_fits::specs::Fits::firsts_ok), using(law::proofs::Every::every_none, law::proofs::Every::every_more))]
fn firsts_ok(n: usize, first: &[u32]) -> bool
    requires { (n ≤ particles) × (2 * n ≤ length first.now) }
    ensures { result ≡ firsts_ok n (at first.now) }
{
    let mut ok = true;
    for i in 0..n {
        ok = ok & twins_ok(first, i);
    }
    ok
}

// Row r is as long as it has columns from its first to its diagonal, with its start taken to 31 bits.
#[tactic(auto, unfolding(crate::specs::Quick::step_ok))]
fn step_ok(first: &[u32], row_start: &[u32], r: usize) -> bool
    requires { (r < 2 * particles) × (r < length first.now) × (r + 1 < length row_start.now) × (at first.now r ≤ r) }
    ensures { result ≡ step_ok (at first.now) (at row_start.now) r }
{
    let f = first[r];
    let a = row_start[r] % 2147483648;
    let b = row_start[r + 1];
    b == a + (r as u32 - f + 1)
}

#[tactic(auto, using(law::proofs::Every::every_none, law::proofs::Every::every_more))]
fn steps_ok(rows: usize, first: &[u32], row_start: &[u32]) -> bool
    requires { Lows rows first.now row_start.now }
    ensures { result ≡ every (step_ok (at first.now) (at row_start.now)) 0 rows }
{
    let mut ok = true;
    for r in 0..rows {
        ok = ok & step_ok(first, row_start, r);
    }
    ok
}

// The plan's rules that ask for no pattern. What the order undoes undoes the order.
pub fn plan_ok(n: usize, plan: &Plan) -> bool
    requires { IsLaid n (plan_lists plan.now) }
    ensures { result ≡ is_planned n (plan_lists plan.now) }
{
    let ok = undoes(n, plan.perm, plan.inv_perm) & firsts_ok(n, plan.first);
    ok && ((plan.row_start[0] == 0) & steps_ok(2 * n, plan.first, plan.row_start))
}
