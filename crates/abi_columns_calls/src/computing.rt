// The columns of the loaded particles, counted. Accepted, six lent places say how many of the solves ended in each way; a refusal leaves them, and
// the tally has one refused call more.
ghost use Rattle.matrix_shape.specs.Shape.{shape};
ghost use Rattle.plan_fits.specs.Layout.{layout};
ghost use Rattle.step_tally.specs.Count.{tally_of};
ghost use Rattle.step_routes.specs.System.{system};
ghost use Rattle.columns_table.specs.Lent.{numbering};
ghost use Rattle.columns_make.specs.Making as making;
ghost use Rattle.abi_answers.specs.Numbers.{Told};
ghost use Rattle.abi_columns_answers.specs.Computes.{reckoned, reckoned_number, numbers, numbers_of};

use abi_answers::number;
use abi_columns_answers::computed;
use columns_table::table::Table;
use gradient_definition::Settings;
use matrix_shape::pattern::Pattern;
use plan_fits::plan::Plan;
use step_routes::system::System;
use step_tally::Tally;

#[unsafe(no_mangle)]
pub extern "C" fn bracket_compute_columns(
    n: usize,
    row_offsets: &[u32],
    cols: &[u32],
    diagonal: &[u32],
    blocks: &[f32],
    perm: &[u32],
    inv_perm: &[u32],
    first: &[u32],
    row_start: &[u32],
    values: &[f32],
    factored: bool,
    preconditioner: &[f32],
    tolerance: f32,
    max_iterations: usize,
    max_dense_dofs: usize,
    pinned: &[u8],
    loaded: usize,
    column_of: &[u32],
    columns: &mut [f32],
    rhs: &mut [f32],
    scratch: &mut [f32],
    residual: &mut [f32],
    direction: &mut [f32],
    a_direction: &mut [f32],
    z: &mut [f32],
    counts: &mut [u32; 7],
    ended: &mut [u32; 6],
) -> u8
    ensures { Told making.door reckoned reckoned_number numbers_of
        (making.given (system (shape n row_offsets.now cols.now diagonal.now) blocks.now
        (layout perm.now inv_perm.now first.now row_start.now) values.now factored
        preconditioner.now tolerance max_iterations max_dense_dofs)
        (numbering pinned.now loaded column_of.now) columns.old
        rhs.old scratch.old residual.old direction.old a_direction.old z.old
        (tally_of counts.old))
        result
        (λ a. making.left a.answer columns.new rhs.new scratch.new residual.new direction.new
        a_direction.new z.new a.tally)
        (numbers counts.old ended.old)
        (numbers counts.new ended.new) }
{
    let pattern = Pattern {
        n,
        row_offsets,
        cols,
        diagonal,
    };
    let plan = Plan {
        perm,
        inv_perm,
        first,
        row_start,
    };
    let settings = Settings {
        tolerance,
        max_iterations,
    };
    let system = System {
        pattern,
        blocks,
        plan,
        values,
        factored,
        preconditioner,
        settings,
        max_dense_dofs,
    };
    let table = Table {
        pinned,
        loaded,
        column_of,
    };
    let mut tally = Tally::from(*counts);
    let answer = columns_doors::compute_columns(
        &system,
        &table,
        columns,
        rhs,
        scratch,
        residual,
        direction,
        a_direction,
        z,
        &mut tally,
    );
    *counts = <[u32; 7]>::from(tally);
    *ended = computed::after(*ended, answer);
    number(&answer)
}
