// What is drawn, lent together.

// A pattern of n particles by its rows, the order of a plan, and the first column of each of its rows.
#[derive(Clone, Copy)]
pub struct Drawing<'a> {
    pub n: usize,
    pub row_offsets: &'a [u32],
    pub cols: &'a [u32],
    pub order: &'a [u32],
    pub first: &'a [u32],
}
