// One row of a block matrix, shown. THE DOORS: each tests all that it is handed, and refuses or answers. No diagonal is handed
// and one row alone is read, so the pattern isn't tested: a row whose bounds fall or pass the last row offset has no block.
// `row_col` and `row_slot` stay two calls: C has both, and they share two short lines.
#![tactic(auto)]

ghost use Rattle.law.specs.Promise.{Promise};
ghost use Rattle.matrix_row_view.specs.Showing as showing;

use law::refusal::Refusal;
use rows::Rows;

pub mod front;
pub mod refuse;
pub mod rows;

// The slot of the row's first block, and how many blocks it has.
#[derive(Clone, Copy)]
pub struct Slots {
    pub first: usize,
    pub len: usize,
}

// A row's slots; from 0 on, and none, where it has no block.
#[tactic(auto, unfolding(law::specs::Promise::outcome))]
pub fn row_span(rows: &Rows, row: usize) -> Result<Slots, Refusal>
    ensures { Promise showing.span_door (showing.handed rows.now row) (showing.spanned result) }
{
    refuse::row(rows, row)?;
    Ok(front::row_span(rows, row))
}

// The column of the row's j-th block, 4294967295 past its end.
#[tactic(auto, unfolding(law::specs::Promise::outcome))]
pub fn row_col(rows: &Rows, row: usize, j: usize) -> Result<u32, Refusal>
    ensures { Promise (showing.column_door j) (showing.handed rows.now row) (showing.seen result) }
{
    refuse::row(rows, row)?;
    Ok(front::row_col(rows, row, j))
}

// The slot of the row's block with the column, 4294967295 where it has none: a search by halves, which may miss a column where the row's don't rise.
#[tactic(auto, unfolding(law::specs::Promise::outcome))]
pub fn row_slot(rows: &Rows, row: usize, col: u32) -> Result<u32, Refusal>
    ensures { Promise (showing.slot_door col) (showing.handed rows.now row) (showing.placed result) }
{
    refuse::row(rows, row)?;
    Ok(front::row_slot(rows, row, col))
}
