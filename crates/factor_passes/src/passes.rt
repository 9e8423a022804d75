// The two passes over a factor's rows, from soft_fem_skyline.rs's `solve`. What these require, the doors have tested.
ghost use Rattle.std.specs.Prelude.{◌≡◌, ◌≤◌, ◌<◌, length, get_or};
ghost use Rattle.std.specs.Float.{nan};
ghost use Rattle.matrix_shape.specs.Rows.{at};
ghost use Rattle.plan_fits.specs.Cells.{look};
ghost use Rattle.factor_passes.specs.Passes.{forward_by, forward_of, back_step, backward_of};
ghost use Rattle.factor_passes.specs.Held.{Held, Row};

use plan_fits::plan::Plan;

// Entry i of y, from those before it; y[i] is still b's.
#[tactic(auto, using(crate::proofs::Held::forward_bare, crate::proofs::Held::forward_less))]
fn forward_at(plan: &Plan, values: &[f32], y: &[f32], i: usize) -> f32
    requires { Row plan.now.first.now plan.now.row_start.now values.now i × (i < length y.now) }
    ensures { result ≡ forward_by (at plan.now.first.now)
        (look (at plan.now.first.now) (at plan.now.row_start.now) values.now)
        y.now (get_or y.now i nan) i }
{
    let from = law::wide(plan.first[i]);
    let start = law::wide(plan.row_start[i]);
    let len = i - from;
    let corner = values[start + len];
    if i <= from {
        return y[i] / corner;
    }
    (y[i] - flat_runs::run::dot(values, start, y, from, len)) / corner
}

// L y = b, in place, by number: an entry's turn reads those before it.
#[tactic(auto, unfolding(crate::specs::Passes::forward_of, crate::specs::Passes::forward_step), using(law::proofs::Loop::over_none, law::proofs::Loop::over_turn, law::proofs::Loop::over_done, crate::proofs::Held::row_of))]
pub fn forward(m: usize, plan: &Plan, values: &[f32], y: &mut [f32])
    requires { Held m plan.now.first.now plan.now.row_start.now values.now × (m ≤ length y.old) }
    ensures { y.new ≡ forward_of (at plan.now.first.now)
        (look (at plan.now.first.now) (at plan.now.row_start.now) values.now)
        m y.old }
{
    for i in 0..m {
        y[i] = forward_at(plan, values, y, i);
    }
}

// Entry i of x, and its part taken from the entries before it.
#[tactic(auto, using(crate::proofs::Held::back_turn))]
fn back(plan: &Plan, values: &[f32], i: usize, y: &mut [f32])
    requires { Row plan.now.first.now plan.now.row_start.now values.now i × (i < length y.old) }
    ensures { y.new ≡ back_step (at plan.now.first.now)
        (look (at plan.now.first.now) (at plan.now.row_start.now) values.now)
        i y.old }
{
    let from = law::wide(plan.first[i]);
    let start = law::wide(plan.row_start[i]);
    let len = i - from;
    let x = y[i] / values[start + len];
    y[i] = x;
    flat_runs::run::take(values, start, from, len, x, y);
}

// Lᵀ x = y, in place, the last row first.
#[tactic(auto, unfolding(crate::specs::Passes::backward_of), using(law::proofs::Loop::over_none, law::proofs::Loop::over_turn, law::proofs::Loop::over_done, crate::proofs::Held::row_of))]
pub fn backward(m: usize, plan: &Plan, values: &[f32], y: &mut [f32])
    requires { Held m plan.now.first.now plan.now.row_start.now values.now × (m ≤ length y.old) }
    ensures { y.new ≡ backward_of (at plan.now.first.now)
        (look (at plan.now.first.now) (at plan.now.row_start.now) values.now)
        m y.old }
{
    for i in (0..m).rev() {
        back(plan, values, i, y);
    }
}
