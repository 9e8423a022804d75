// From a text over its pairs to the lines of their plan. Nothing is written before nothing is refused.
// The lists that are written stay parameters: of a struct of them each clause would have to say that its fields keep their references.
ghost use Rattle.std.specs.Prelude.{◌≡◌, ◌*◌, ◌≤◌, length};
ghost use Rattle.law.specs.Limit.{particles};
ghost use Rattle.law.specs.Promise.{Promise};
ghost use Rattle.bench_plan.specs.Built.{Counted, Sheet};
ghost use Rattle.bench_plan.specs.Read.{numbers_room};
ghost use Rattle.bench_answer.specs.Answering.{given, left, answering, Answers};

use bench_text::inner::Counts;
use law::refusal::{Refusal, ensure};

// Room for the lines of n particles, ten digits to a number, is asked for before the pairs are looked at.
fn answer_pairs(
    counts: Counts,
    pairs: &[u32],
    row_offsets: &mut [u32],
    cols: &mut [u32],
    diagonal: &mut [u32],
    work: &mut [u32],
    order: &mut [u32],
    first: &mut [u32],
    out: &mut [u8],
) -> Result<usize, Refusal>
    requires { Counted counts.n counts.pairs pairs.now ×
        (Sheet row_offsets.old cols.old diagonal.old work.old order.old × (2 * particles ≤ length first.old)) }
    ensures { Promise answering (given counts.n counts.pairs pairs.now out.old) (left result out.new) }
{
    ensure(26 + 11 * counts.n <= out.len(), Refusal::ShortBuffer)?;
    let draft = bench_plan::inner::from_pairs(
        counts,
        pairs,
        row_offsets,
        cols,
        diagonal,
        work,
        order,
        first,
    )?;
    Ok(bench_print::inner::write_plan(draft.envelope, &order[..draft.n], out))
}

// Reads the text, whose pairs then decide.
pub fn answer_text(
    text: &[u8],
    numbers: &mut [u32],
    row_offsets: &mut [u32],
    cols: &mut [u32],
    diagonal: &mut [u32],
    work: &mut [u32],
    order: &mut [u32],
    first: &mut [u32],
    out: &mut [u8],
) -> Result<usize, Refusal>
    requires { (length numbers.old ≡ numbers_room) ×
        (Sheet row_offsets.old cols.old diagonal.old work.old order.old × (2 * particles ≤ length first.old)) }
    ensures { Answers text.now out.old (left result out.new) }
{
    let counts = bench_text::inner::read(text, numbers)?;
    let m = 2 * counts.pairs;
    answer_pairs(
        counts,
        &numbers[..m],
        row_offsets,
        cols,
        diagonal,
        work,
        order,
        first,
        out,
    )
}
