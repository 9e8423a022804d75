// The row view behind the doors, total on any lists. First with plain parameters; then through a small view that holds the row's part of the
// caller's column list and its first slot, each of whose methods calls a plain one.
ghost use Rattle.std.specs.Prelude.{◌≡◌, length};
ghost use Rattle.matrix_row.specs.Row.{span_of, row_first, row_cols, col_or, slot_or};

// A row's slots: from..to.
#[derive(Clone, Copy)]
pub struct Span {
    pub from: usize,
    pub to: usize,
}

// Row r's slots; none where there is no such row or its bounds are not in order.
pub fn span_at(row_offsets: &[u32], cols: &[u32], r: usize) -> Span
    ensures { result ≡ span_of row_offsets.now (length cols.now) r }
{
    let none = Span { from: 0, to: 0 };
    if row_offsets.len() <= r || row_offsets.len() <= r + 1 {
        return none;
    }
    let from = law::wide(row_offsets[r]);
    let to = law::wide(row_offsets[r + 1]);
    if (from <= to) & (to <= cols.len()) {
        return Span { from, to };
    }
    none
}

// The row's first slot.
pub fn row_first(row_offsets: &[u32], cols: &[u32], r: usize) -> usize
    ensures { result ≡ row_first row_offsets.now cols.now r }
{
    span_at(row_offsets, cols, r).from
}

// How many blocks the row has.
pub fn row_len(row_offsets: &[u32], cols: &[u32], r: usize) -> usize
    ensures { result ≡ length (row_cols row_offsets.now cols.now r) }
{
    row_cols(row_offsets, cols, r).len()
}

// The row's own part of the caller's column list.
pub fn row_cols<'a>(row_offsets: &[u32], cols: &'a [u32], r: usize) -> &'a [u32]
    ensures { result.now ≡ row_cols row_offsets.now cols.now r }
{
    let span = span_at(row_offsets, cols, r);
    &cols[span.from..span.to]
}

// The j-th of a row's columns, 4294967295 past its end, as C is told.
pub fn col_or(cols: &[u32], j: usize) -> u32
    ensures { result ≡ col_or cols.now j }
{
    cols.get(j).copied().unwrap_or(law::ABSENT)
}

// The slot of the j-th of a row's columns; none too where no usize holds it, since a view may be made of any numbers.
pub fn slot_or(cols: &[u32], first: usize, j: usize) -> Option<usize>
    ensures { result ≡ slot_or cols.now first j }
{
    if j < cols.len() {
        first.checked_add(j)
    } else {
        None
    }
}

// One row: its part of the caller's column list, and the slot of its first block.
#[derive(Clone, Copy)]
pub struct Row<'a> {
    pub cols: &'a [u32],
    pub first: usize,
}

impl<'a> Row<'a> {
    pub fn of(row_offsets: &[u32], cols: &'a [u32], r: usize) -> Row<'a>
        ensures { (result.cols.now ≡ row_cols row_offsets.now cols.now r)
            ×
            (result.first ≡ row_first row_offsets.now cols.now r) }
    {
        Row {
            cols: row_cols(row_offsets, cols, r),
            first: row_first(row_offsets, cols, r),
        }
    }

    pub fn len(&self) -> usize
        ensures { result ≡ length self.now.cols.now }
    {
        self.cols.len()
    }

    pub fn col(&self, j: usize) -> u32
        ensures { result ≡ col_or self.now.cols.now j }
    {
        col_or(self.cols, j)
    }

    pub fn slot(&self, j: usize) -> Option<usize>
        ensures { result ≡ slot_or self.now.cols.now self.now.first j }
    {
        slot_or(self.cols, self.first, j)
    }
}

// The view behind plain parameters.
pub fn row_col(row_offsets: &[u32], cols: &[u32], r: usize, j: usize) -> u32
    ensures { result ≡ col_or (row_cols row_offsets.now cols.now r) j }
{
    Row::of(row_offsets, cols, r).col(j)
}
