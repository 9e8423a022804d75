// One row, shown: what a caller in C has in place of `for_each_block_of_row`, and a slot found without a test of the pattern. Each answers
// the refusal's number, or 0; acceptance writes the lent place, and a refusal leaves it.
// Numbers, lists and lent places stand one by one, and the answer is a byte: it is the C interface.
ghost use Rattle.matrix_row_view.specs.Showing as showing;
ghost use Rattle.abi_answers.specs.Numbers.{answered, Told};
ghost use Rattle.abi_calls.specs.Row.{spanned_first, spanned_len, seen_col, placed_slot};

use abi_answers::number;
use matrix_row_view::rows::Rows;

// The slot of the row's first block.
#[unsafe(no_mangle)]
pub extern "C" fn bracket_row_first(
    n: usize,
    row_offsets: &[u32],
    cols: &[u32],
    row: usize,
    first: &mut usize,
) -> u8
    ensures { Told showing.span_door (λ o. o.answer) answered spanned_first
        (showing.given n row_offsets.now cols.now row)
        result showing.spanned first.old first.new }
{
    let rows = Rows {
        n,
        row_offsets,
        cols,
    };
    let span = matrix_row_view::row_span(&rows, row);
    *first = span.map_or(*first, |slots| slots.first);
    number(&span)
}

// How many blocks the row has.
#[unsafe(no_mangle)]
pub extern "C" fn bracket_row_len(
    n: usize,
    row_offsets: &[u32],
    cols: &[u32],
    row: usize,
    len: &mut usize,
) -> u8
    ensures { Told showing.span_door (λ o. o.answer) answered spanned_len
        (showing.given n row_offsets.now cols.now row)
        result showing.spanned len.old len.new }
{
    let rows = Rows {
        n,
        row_offsets,
        cols,
    };
    let span = matrix_row_view::row_span(&rows, row);
    *len = span.map_or(*len, |slots| slots.len);
    number(&span)
}

// The column of the row's j-th block, 4294967295 past its end.
#[unsafe(no_mangle)]
pub extern "C" fn bracket_row_col(
    n: usize,
    row_offsets: &[u32],
    cols: &[u32],
    row: usize,
    j: usize,
    col: &mut u32,
) -> u8
    ensures { Told (showing.column_door j) (λ o. o.answer) answered seen_col
        (showing.given n row_offsets.now cols.now row)
        result showing.seen col.old col.new }
{
    let rows = Rows {
        n,
        row_offsets,
        cols,
    };
    let seen = matrix_row_view::row_col(&rows, row, j);
    *col = seen.unwrap_or(*col);
    number(&seen)
}

// The slot of the row's block with the column, 4294967295 where it has none.
#[unsafe(no_mangle)]
pub extern "C" fn bracket_row_slot(
    n: usize,
    row_offsets: &[u32],
    cols: &[u32],
    row: usize,
    col: u32,
    slot: &mut u32,
) -> u8
    ensures { Told (showing.slot_door col) (λ o. o.answer) answered placed_slot
        (showing.given n row_offsets.now cols.now row)
        result showing.placed slot.old slot.new }
{
    let rows = Rows {
        n,
        row_offsets,
        cols,
    };
    let placed = matrix_row_view::row_slot(&rows, row, col);
    *slot = placed.unwrap_or(*slot);
    number(&placed)
}
