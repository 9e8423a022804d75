// The conjugate gradient's calls. Each answers the refusal's number, or 0; the lists are left as the call's own promise says. How a solve ended
// goes into four lent places: acceptance writes them, +0.0 where the outcome carries no such float, and a refusal leaves them.
// Numbers, lists and lent places stand one by one, and the answer is a byte: it is the C interface.
ghost use Rattle.gradient_doors.specs.Updating as updating;
ghost use Rattle.gradient_doors.specs.Solving as solving;
ghost use Rattle.matrix_shape.specs.Shape.{shape};
ghost use Rattle.abi_answers.specs.Numbers.{answered, Numbered, Told};
ghost use Rattle.abi_answers.specs.Telling.{places};
ghost use Rattle.abi_answers.specs.Told.{places_of};

use abi_answers::ended::Places;
use abi_answers::number;
use gradient_definition::Settings;
use matrix_shape::pattern::Pattern;

#[unsafe(no_mangle)]
pub extern "C" fn bracket_update_preconditioner(
    n: usize,
    row_offsets: &[u32],
    cols: &[u32],
    diagonal: &[u32],
    blocks: &[f32],
    preconditioner: &mut [f32],
) -> u8
    ensures { Numbered updating.door (λ o. o.answer) answered
        (updating.given (shape n row_offsets.now cols.now diagonal.now) blocks.now
        preconditioner.old)
        result
        (λ a. updating.left a preconditioner.new) }
{
    let pattern = Pattern {
        n,
        row_offsets,
        cols,
        diagonal,
    };
    number(&gradient_doors::update_preconditioner(&pattern, blocks, preconditioner))
}

#[unsafe(no_mangle)]
pub extern "C" fn bracket_conjugate_gradient(
    n: usize,
    row_offsets: &[u32],
    cols: &[u32],
    diagonal: &[u32],
    blocks: &[f32],
    preconditioner: &[f32],
    b: &[f32],
    tolerance: f32,
    max_iterations: usize,
    x: &mut [f32],
    residual: &mut [f32],
    direction: &mut [f32],
    a_direction: &mut [f32],
    z: &mut [f32],
    how: &mut u32,
    count: &mut usize,
    residual_squared: &mut f32,
    denominator: &mut f32,
) -> u8
    ensures { Told solving.door (λ o. o.answer) answered places_of
        (solving.given (shape n row_offsets.now cols.now diagonal.now) blocks.now preconditioner.now
        b.now tolerance max_iterations x.old residual.old direction.old a_direction.old
        z.old)
        result
        (λ a. solving.left a x.new residual.new direction.new a_direction.new z.new)
        (places how.old count.old residual_squared.old denominator.old)
        (places how.new count.new residual_squared.new denominator.new) }
{
    let pattern = Pattern {
        n,
        row_offsets,
        cols,
        diagonal,
    };
    let settings = Settings {
        tolerance,
        max_iterations,
    };
    let answer = gradient_doors::solve(
        &pattern,
        blocks,
        preconditioner,
        b,
        settings,
        x,
        residual,
        direction,
        a_direction,
        z,
    );
    let before = Places {
        how: *how,
        count: *count,
        residual_squared: *residual_squared,
        denominator: *denominator,
    };
    let after = before.after(answer);
    *how = after.how;
    *count = after.count;
    *residual_squared = after.residual_squared;
    *denominator = after.denominator;
    number(&answer)
}
