// The pattern's own part of the lists is lent on to the view, so that a longer list's rest is never shown as a row.
ghost use Rattle.std.specs.Prelude.{◌≡◌};
ghost use Rattle.matrix_row_view.specs.Showing.{handed, slots_of, column_of, slot_of, Ready};

use crate::Slots;
use crate::rows::Rows;
use matrix_row::inner;

pub fn row_span(rows: &Rows, row: usize) -> Slots
    requires { Ready (handed rows.now row) }
    ensures { result ≡ slots_of (handed rows.now row) }
{
    let (starts, own) = rows.own();
    Slots {
        first: inner::row_first(starts, own, row),
        len: inner::row_len(starts, own, row),
    }
}

pub fn row_col(rows: &Rows, row: usize, j: usize) -> u32
    requires { Ready (handed rows.now row) }
    ensures { result ≡ column_of (handed rows.now row) j }
{
    let (starts, own) = rows.own();
    inner::row_col(starts, own, row, j)
}

#[tactic(auto, using(matrix_row::proofs::Row::span_ok))]
pub fn row_slot(rows: &Rows, row: usize, col: u32) -> u32
    requires { Ready (handed rows.now row) }
    ensures { result ≡ slot_of (handed rows.now row) col }
{
    let (starts, own) = rows.own();
    let span = inner::span_at(starts, own, row);
    matrix_shape::index::searched(own, span.from, span.to, col)
}
