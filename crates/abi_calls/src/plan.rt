// Planning. Answers the refusal's number, or 0; the envelope's length is then the last row start. The lists are left as the call's own promise says.
// Numbers, lists and lent places stand one by one, and the answer is a byte: it is the C interface.
ghost use Rattle.plan_make.specs.Plan.{four};
ghost use Rattle.plan_make.specs.Parts.{five};
ghost use Rattle.plan_doors.specs.Planning.{given, left, door};
ghost use Rattle.matrix_shape.specs.Shape.{shape};
ghost use Rattle.abi_answers.specs.Numbers.{answered, Numbered};

use abi_answers::number;
use matrix_shape::pattern::Pattern;

#[unsafe(no_mangle)]
pub extern "C" fn bracket_plan(
    n: usize,
    row_offsets: &[u32],
    cols: &[u32],
    diagonal: &[u32],
    perm: &mut [u32],
    inv_perm: &mut [u32],
    first: &mut [u32],
    row_start: &mut [u32],
    degrees: &mut [u32],
    placed: &mut [u32],
    mark: &mut [u32],
    level: &mut [u32],
    queue: &mut [u32],
) -> u8
    ensures { Numbered door (λ o. o.answer) answered
        (given (shape n row_offsets.now cols.now diagonal.now) (four perm.old inv_perm.old
        first.old row_start.old) (five degrees.old placed.old mark.old level.old
        queue.old))
        result
        (λ a. left a (four perm.new inv_perm.new first.new row_start.new)
        (five degrees.new placed.new mark.new level.new queue.new)) }
{
    let pattern = Pattern {
        n,
        row_offsets,
        cols,
        diagonal,
    };
    number(&plan_doors::plan(
        &pattern, perm, inv_perm, first, row_start, degrees, placed, mark, level, queue,
    ))
}
