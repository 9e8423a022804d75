// The step's factor. Accepted, how is 0 for a whole factor, whose mark is set, 1 for a failure,
// and 2 where the step is iterated; row and pivot are written by a failure alone.
ghost use Rattle.matrix_shape.specs.Shape.{shape};
ghost use Rattle.plan_fits.specs.Layout.{layout};
ghost use Rattle.step_solve.specs.Marking as marking;
ghost use Rattle.abi_answers.specs.Numbers.{answered, Told};
ghost use Rattle.abi_answers.specs.Telling.{factor};
ghost use Rattle.abi_step_answers.specs.Marks.{places_of};

use abi_answers::factored::Factor;
use abi_answers::number;
use abi_step_answers::marked;
use matrix_shape::pattern::Pattern;
use plan_fits::plan::Plan;

#[unsafe(no_mangle)]
pub extern "C" fn bracket_factorize_step_matrix(
    n: usize,
    row_offsets: &[u32],
    cols: &[u32],
    diagonal: &[u32],
    blocks: &[f32],
    perm: &[u32],
    inv_perm: &[u32],
    first: &[u32],
    row_start: &[u32],
    max_dense_dofs: usize,
    values: &mut [f32],
    preconditioner: &mut [f32],
    how: &mut u32,
    row: &mut usize,
    pivot: &mut f32,
) -> u8
    ensures { Told marking.door (λ o. o.answer) answered places_of
        (marking.given (shape n row_offsets.now cols.now diagonal.now) blocks.now
        (layout perm.now inv_perm.now first.now row_start.now) max_dense_dofs values.old
        preconditioner.old)
        result
        (λ a. marking.left a values.new preconditioner.new)
        (factor how.old row.old pivot.old)
        (factor how.new row.new pivot.new) }
{
    let pattern = Pattern {
        n,
        row_offsets,
        cols,
        diagonal,
    };
    let plan = Plan {
        perm,
        inv_perm,
        first,
        row_start,
    };
    let answer = step_doors::factorize_step_matrix(
        &pattern,
        blocks,
        &plan,
        max_dense_dofs,
        values,
        preconditioner,
    );
    let before = Factor {
        how: *how,
        row: *row,
        pivot: *pivot,
    };
    let after = marked::after(before, answer);
    *how = after.how;
    *row = after.row;
    *pivot = after.pivot;
    number(&answer)
}
