// Pairs as a call is handed them: the list, and how much of it counts, which always come together.

// Two numbers to a pair, of n particles; the first `count` pairs of the list count. Whatever is lent may stand here: a call tests it.
#[derive(Clone, Copy)]
pub struct Pairs<'a> {
    pub n: usize,
    pub count: usize,
    pub list: &'a [u32],
}
