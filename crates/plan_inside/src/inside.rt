// Whether every stored lower block lies inside the plan's envelope, and the whole test of a plan with its pattern.
// The loops gather with `&` and go to their end: a test that stops at the first fault (`all`) is a branch more for each block.
ghost use Rattle.std.specs.Prelude.{◌≡◌, ◌<◌};
ghost use Rattle.law.specs.Every.{every};
ghost use Rattle.matrix_shape.specs.Rows.{at};
ghost use Rattle.matrix_shape.specs.Shape.{IsPattern, lists};
ghost use Rattle.plan_fits.specs.Fits.{fits_ok};
ghost use Rattle.plan_fits.specs.Layout.{IsLaid, plan_lists};
ghost use Rattle.plan_fits.specs.Lists.{Placed};
ghost use Rattle.plan_inside.specs.Half.{two_ok, half_ok, Lefts};

use matrix_shape::pattern::Pattern;
use plan_fits::plan::Plan;

// The slots a..b of a row at position i, whose rows start at column `low`: each block and its mirror lie inside.
#[tactic(auto, unfolding(crate::specs::Half::two_ok), using(law::proofs::Every::every_none, law::proofs::Every::every_more))]
fn slots_ok(cols: &[u32], plan: &Plan, a: usize, b: usize, i: usize, low: usize) -> bool
    requires { Lefts cols.now plan.now.inv_perm.now plan.now.first.now a b i }
    ensures { result ≡ every
        (two_ok (at cols.now) (at plan.now.inv_perm.now) (at plan.now.first.now) i low)
        a b }
{
    let mut ok = true;
    for k in a..b {
        let c = law::wide(cols[k]);
        let j = 2 * law::wide(plan.inv_perm[c]);
        ok = ok & ((low <= j) & (law::wide(plan.first[j]) <= 2 * i));
    }
    ok
}

// The blocks of row r before its diagonal's.
#[tactic(auto, unfolding(crate::specs::Half::half_ok))]
fn row_ok(pattern: &Pattern, plan: &Plan, r: usize) -> bool
    requires formed { IsPattern (lists pattern.now) }
    requires placed { Placed pattern.now.n plan.now.inv_perm.now plan.now.first.now }
    requires row { r < pattern.now.n }
    ensures { result ≡ half_ok (at pattern.now.row_offsets.now) (at pattern.now.cols.now) (at pattern.now.diagonal.now)
        (at plan.now.inv_perm.now) (at plan.now.first.now) r }
{
    let a = law::wide(pattern.row_offsets[r]);
    let b = law::wide(pattern.diagonal[r]);
    let i = law::wide(plan.inv_perm[r]);
    let low = law::wide(plan.first[2 * i]);
    slots_ok(pattern.cols, plan, a, b, i, low)
}

#[tactic(auto, using(law::proofs::Every::every_none, law::proofs::Every::every_more))]
fn rows_ok(pattern: &Pattern, plan: &Plan) -> bool
    requires formed { IsPattern (lists pattern.now) }
    requires placed { Placed pattern.now.n plan.now.inv_perm.now plan.now.first.now }
    ensures { result ≡ every
        (half_ok (at pattern.now.row_offsets.now) (at pattern.now.cols.now) (at pattern.now.diagonal.now)
        (at plan.now.inv_perm.now) (at plan.now.first.now))
        0 pattern.now.n }
{
    let mut ok = true;
    for r in 0..pattern.n {
        ok = ok & row_ok(pattern, plan, r);
    }
    ok
}

// The plan's rules, and its pattern's blocks inside.
#[tactic(auto, unfolding(plan_fits::specs::Fits::fits_ok))]
pub fn fits(pattern: &Pattern, plan: &Plan) -> bool
    requires pattern { IsPattern (lists pattern.now) }
    requires laid { IsLaid pattern.now.n (plan_lists plan.now) }
    ensures { result ≡ fits_ok pattern.now.n (at pattern.now.row_offsets.now) (at pattern.now.cols.now)
        (at plan.now.perm.now) (at plan.now.inv_perm.now) (at plan.now.first.now) (at plan.now.row_start.now) }
{
    plan_test::plan::plan_ok(pattern.n, plan) && rows_ok(pattern, plan)
}
