// From a text to the lists that are drawn.
// The lists that are written stay parameters: of a struct of them each clause would have to say that its fields keep their references.
ghost use Rattle.std.specs.Prelude.{◌≡◌, ◌*◌, ◌≤◌, length};
ghost use Rattle.law.specs.Limit.{particles};
ghost use Rattle.bench_text.specs.Buffer.{Buffered};
ghost use Rattle.bench_plan.specs.Built.{Sheet};
ghost use Rattle.bench_plan.specs.Read.{numbers_room};
ghost use Rattle.bench_sketch.specs.Sketch.{Sketches};

use law::refusal::Refusal;

// Takes what was read into the buffer and leaves its pattern and plan in the fronts of the lists. Answers how many particles there are.
pub fn sketch(
    read: usize,
    buffer: &[u8],
    numbers: &mut [u32],
    row_offsets: &mut [u32],
    cols: &mut [u32],
    diagonal: &mut [u32],
    work: &mut [u32],
    order: &mut [u32],
    first: &mut [u32],
) -> Result<usize, Refusal>
    requires { Buffered read buffer.now ×
        ((length numbers.old ≡ numbers_room) ×
        (Sheet row_offsets.old cols.old diagonal.old work.old order.old × (2 * particles ≤ length first.old))) }
    ensures { Sketches read buffer.now result row_offsets.new cols.new order.new first.new }
{
    let draft = bench_plan::inner::from_text(
        &buffer[..read],
        numbers,
        row_offsets,
        cols,
        diagonal,
        work,
        order,
        first,
    )?;
    Ok(draft.n)
}
