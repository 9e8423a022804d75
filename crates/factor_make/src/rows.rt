// A row's turn: its entries left of the diagonal, then its pivot's root on it.
ghost use Rattle.std.specs.Prelude.{◌≡◌, ◌<◌};
ghost use Rattle.matrix_shape.specs.Rows.{at};
ghost use Rattle.factor_make.specs.Factor.{state, row_of, Envelope};

use crate::Failed;
use plan_fits::plan::Plan;

// Row i, once all before it are finished. A pivot that is a NaN is not above zero.
#[tactic(auto, unfolding(crate::specs::Factor::row_of, crate::specs::Factor::close_of))]
pub fn row(rows: usize, plan: &Plan, i: usize, values: &mut [f32]) -> Result<(), Failed>
    requires envelope { Envelope rows plan.now.first.now plan.now.row_start.now values.old }
    requires i_lt_rows { i < rows }
    ensures { state result values.new ≡ row_of (at plan.now.first.now) (at plan.now.row_start.now) i values.old }
{
    let low = law::wide(plan.first[i]);
    let begin = law::wide(plan.row_start[i]);
    let end = begin + (i - low);
    factor_row::row::left(plan, low, begin, i, values);
    let d = factor_row::row::pivot(values, begin, end);
    if d > 0.0 {
        values[end] = root::root(d);
        return Ok(());
    }
    Err(Failed { row: i, pivot: d })
}
