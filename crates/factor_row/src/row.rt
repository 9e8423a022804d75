// Row-oriented Cholesky in place. A row's entries lie side by side, so that its sums run over flat runs of the values.
ghost use Rattle.std.specs.Prelude.{◌≡◌, ℕ, ◌+◌, ◌-◌, ◌≤◌, ◌<◌, length};
ghost use Rattle.matrix_shape.specs.Rows.{at};
ghost use Rattle.factor_row.specs.Row.{reduced_of, entry_of, left_of, pivot_of, CellReach};

use plan_fits::plan::Plan;

// What stands in column j of a row, less the products of the row and row j over the columns that both hold.
#[tactic(auto, unfolding(crate::specs::Row::reduced_of), using(crate::proofs::Later::later_is))]
fn reduced(values: &[f32], low: usize, begin: usize, low_j: usize, begin_j: usize, j: usize) -> f32
    requires low_le_j { (low ≤ j) × (begin + (j - low) < length values.now) }
    requires low_j_le_j { (low_j ≤ j) × (begin_j + (j - low_j) < length values.now) }
    ensures { result ≡ reduced_of values.now low begin low_j begin_j j }
{
    let k = low.max(low_j);
    let e = values[begin + (j - low)];
    if k < j {
        return e
            - flat_runs::run::dot(
                values,
                begin + (k - low),
                values,
                begin_j + (k - low_j),
                j - k,
            );
    }
    e
}

// Column j of a row, once all before it are finished.
#[tactic(auto, unfolding(crate::specs::Row::entry_of))]
fn entry(plan: &Plan, values: &[f32], low: usize, begin: usize, j: usize) -> f32
    requires { CellReach plan.now.first.now plan.now.row_start.now (length values.now) low begin j }
    ensures { result ≡ entry_of (at plan.now.first.now) (at plan.now.row_start.now) values.now low begin j }
{
    let low_j = law::wide(plan.first[j]);
    let begin_j = law::wide(plan.row_start[j]);
    let e = reduced(values, low, begin, low_j, begin_j, j);
    e / values[begin_j + (j - low_j)]
}

// Row i left of its diagonal, by number: a turn reads by its column what earlier turns wrote.
#[tactic(auto, unfolding(crate::specs::Row::left_of, crate::specs::Row::entry_step), using(law::proofs::Loop::over_none, law::proofs::Loop::over_turn, law::proofs::Loop::over_done))]
pub fn left(plan: &Plan, low: usize, begin: usize, i: usize, values: &mut [f32])
    requires low_le_i { low ≤ i }
    requires by_index { (j : ℕ) → low ≤ j → j < i → CellReach plan.now.first.now plan.now.row_start.now (length values.old) low begin j }
    ensures { values.new ≡ left_of (at plan.now.first.now) (at plan.now.row_start.now) low begin i values.old }
{
    for j in low..i {
        values[begin + (j - low)] = entry(plan, values, low, begin, j);
    }
}

// The diagonal entry, at b, less one square after another of the row's entries from a on.
#[tactic(auto, unfolding(crate::specs::Row::pivot_of, crate::specs::Row::square_step), using(law::proofs::Loop::over_none, law::proofs::Loop::over_turn, law::proofs::Loop::over_done))]
pub fn pivot(values: &[f32], a: usize, b: usize) -> f32
    requires { (a ≤ b) × (b < length values.now) }
    ensures { result ≡ pivot_of values.now a b }
{
    let mut d = values[b];
    for e in &values[a..b] {
        d = d - *e * *e;
    }
    d
}
