// From a text over its pairs and their pattern to the plan.
// The lists that are written stay parameters: of a struct of them each clause would have to say that its fields keep their references.
ghost use Rattle.std.specs.Prelude.{◌≡◌, ℕ, ◌+◌, ◌*◌, ◌≤◌, List, length, take};
ghost use Rattle.law.specs.Limit.{particles};
ghost use Rattle.law.specs.Promise.{Promise};
ghost use Rattle.matrix_shape.specs.Rows.{at};
ghost use Rattle.matrix_shape.specs.Shape.{IsPattern, lists};
ghost use Rattle.bench_plan.specs.Outcome.{given, left, planning, planned_for};
ghost use Rattle.bench_plan.specs.Built.{Counted, Sheet};
ghost use Rattle.bench_plan.specs.Fronts.{plan_to};
ghost use Rattle.bench_plan.specs.Read.{numbers_room};

use bench_text::inner::Counts;
use law::refusal::{Refusal, ensure};
use matrix_shape::pattern::Pattern;

// How many particles there are, and how long the envelope is.
#[derive(Clone, Copy, Debug, PartialEq, Eq)]
pub struct Draft {
    pub n: usize,
    pub envelope: u32,
}

// The order and the first columns into the fronts of lent lists, where the envelope fits. Answers how long that is. The plan's other lists end here.
fn from_pattern(pattern: &Pattern, order: &mut [u32], first: &mut [u32]) -> usize
    requires { IsPattern (lists pattern.now) × ((pattern.now.n ≤ length order.old) × (2 * pattern.now.n ≤ length first.old)) }
    ensures { ◌≡◌ {A = ℕ × (List ℕ × List ℕ)} (result, (order.new, first.new))
        (plan_to pattern.now.n (take (pattern.now.n + 1) pattern.now.row_offsets.now)
        (take (at pattern.now.row_offsets.now pattern.now.n) pattern.now.cols.now) order.old first.old) }
{
    let mut inverse = [0u32; 1024];
    let mut row_start = [0u32; 2049];
    let mut degrees = [0u32; 1024];
    let mut placed = [0u32; 1024];
    let mut mark = [0u32; 1024];
    let mut level = [0u32; 1024];
    let mut queue = [0u32; 1024];
    plan_doors::front::plan(
        pattern,
        order,
        &mut inverse,
        first,
        &mut row_start,
        &mut degrees,
        &mut placed,
        &mut mark,
        &mut level,
        &mut queue,
    )
}

// Pattern and plan of pairs whose counts are within the limits, in the fronts of the lists.
pub fn from_pairs(
    counts: Counts,
    pairs: &[u32],
    row_offsets: &mut [u32],
    cols: &mut [u32],
    diagonal: &mut [u32],
    work: &mut [u32],
    order: &mut [u32],
    first: &mut [u32],
) -> Result<Draft, Refusal>
    requires { Counted counts.n counts.pairs pairs.now ×
        (Sheet row_offsets.old cols.old diagonal.old work.old order.old × (2 * particles ≤ length first.old)) }
    ensures { Promise planning (given counts.n counts.pairs pairs.now)
        (left result row_offsets.new cols.new order.new first.new) }
{
    let n = counts.n;
    ensure(
        matrix_pairs::given::pairs_ok(n, counts.pairs, pairs),
        Refusal::OutOfRange,
    )?;
    matrix_building::inner::build(n, counts.pairs, pairs, row_offsets, cols, diagonal, work);
    let pattern = Pattern {
        n,
        row_offsets,
        cols,
        diagonal,
    };
    let len = from_pattern(&pattern, order, first);
    ensure(len <= law::ENVELOPE, Refusal::LongEnvelope)?;
    Ok(Draft {
        n,
        envelope: len as u32,
    })
}

// Reads the text and leaves its pattern and plan in the fronts of the lists.
pub fn from_text(
    text: &[u8],
    numbers: &mut [u32],
    row_offsets: &mut [u32],
    cols: &mut [u32],
    diagonal: &mut [u32],
    work: &mut [u32],
    order: &mut [u32],
    first: &mut [u32],
) -> Result<Draft, Refusal>
    requires { (length numbers.old ≡ numbers_room) ×
        (Sheet row_offsets.old cols.old diagonal.old work.old order.old × (2 * particles ≤ length first.old)) }
    ensures { left result row_offsets.new cols.new order.new first.new ≡ planned_for text.now }
{
    let counts = bench_text::inner::read(text, numbers)?;
    let m = 2 * counts.pairs;
    from_pairs(
        counts,
        &numbers[..m],
        row_offsets,
        cols,
        diagonal,
        work,
        order,
        first,
    )
}
