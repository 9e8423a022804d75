// The direct solver. Each call answers the refusal's number, or 0; the lists are left as the call's own promise says.
// Numbers, lists and lent places stand one by one, and the answer is a byte: it is the C interface.
ghost use Rattle.factor_doors.specs.Factorizing as factorizing;
ghost use Rattle.factor_doors.specs.Solving as solving;
ghost use Rattle.matrix_shape.specs.Shape.{shape};
ghost use Rattle.plan_fits.specs.Layout.{layout};
ghost use Rattle.abi_answers.specs.Numbers.{answered, Numbered, Told};
ghost use Rattle.abi_answers.specs.Telling.{factor};
ghost use Rattle.abi_answers.specs.Direct.{places_of};

use abi_answers::factored::Factor;
use abi_answers::number;
use matrix_shape::pattern::Pattern;
use plan_fits::plan::Plan;

// Accepted, how is 0 for a whole factor and 1 for a failure; row and pivot are written by a failure alone.
#[unsafe(no_mangle)]
pub extern "C" fn bracket_factorize(
    n: usize,
    row_offsets: &[u32],
    cols: &[u32],
    diagonal: &[u32],
    blocks: &[f32],
    perm: &[u32],
    inv_perm: &[u32],
    first: &[u32],
    row_start: &[u32],
    values: &mut [f32],
    how: &mut u32,
    row: &mut usize,
    pivot: &mut f32,
) -> u8
    ensures { Told factorizing.door (λ o. o.answer) answered places_of
        (factorizing.given (shape n row_offsets.now cols.now diagonal.now) blocks.now
        (layout perm.now inv_perm.now first.now row_start.now) values.old)
        result (λ a. factorizing.left a values.new)
        (factor how.old row.old pivot.old)
        (factor how.new row.new pivot.new) }
{
    let pattern = Pattern {
        n,
        row_offsets,
        cols,
        diagonal,
    };
    let plan = Plan {
        perm,
        inv_perm,
        first,
        row_start,
    };
    let answer = factor_doors::factorize(&pattern, blocks, &plan, values);
    let before = Factor {
        how: *how,
        row: *row,
        pivot: *pivot,
    };
    let after = before.after(answer);
    *how = after.how;
    *row = after.row;
    *pivot = after.pivot;
    number(&answer)
}

#[unsafe(no_mangle)]
pub extern "C" fn bracket_solve(
    n: usize,
    perm: &[u32],
    inv_perm: &[u32],
    first: &[u32],
    row_start: &[u32],
    values: &[f32],
    b: &[f32],
    x: &mut [f32],
    scratch: &mut [f32],
) -> u8
    ensures { Numbered solving.door (λ o. o.answer) answered
        (solving.given n (layout perm.now inv_perm.now first.now row_start.now) values.now
        b.now x.old scratch.old)
        result
        (λ a. solving.left a x.new scratch.new) }
{
    let plan = Plan {
        perm,
        inv_perm,
        first,
        row_start,
    };
    number(&factor_doors::solve(n, &plan, values, b, x, scratch))
}
