// For measuring only, like measured.rt: the work on columns. The places are filled as the C calls fill them.
ghost use Rattle.matrix_shape.specs.Shape.{shape};
ghost use Rattle.plan_fits.specs.Layout.{layout};
ghost use Rattle.step_tally.specs.Count.{tally_of};
ghost use Rattle.step_routes.specs.System.{system};
ghost use Rattle.step_entries.specs.Lent.{entered};
ghost use Rattle.columns_table.specs.Lent.{numbering};
ghost use Rattle.columns_make.specs.Making as making;
ghost use Rattle.columns_combine.specs.Combining as combining;
ghost use Rattle.columns_block.specs.Blocking as blocking;

use abi_columns_answers::block::Shown;
use abi_columns_answers::combined::Gained;
use abi_columns_answers::computed;
use columns_table::table::Table;
use gradient_definition::Settings;
use matrix_shape::pattern::Pattern;
use plan_fits::plan::Plan;
use step_entries::entries::Entries;
use step_routes::system::System;
use step_tally::Tally;

#[unsafe(no_mangle)]
pub extern "C" fn inside_compute_columns(
    n: usize,
    row_offsets: &[u32],
    cols: &[u32],
    diagonal: &[u32],
    blocks: &[f32],
    perm: &[u32],
    inv_perm: &[u32],
    first: &[u32],
    row_start: &[u32],
    values: &[f32],
    factored: bool,
    preconditioner: &[f32],
    tolerance: f32,
    max_iterations: usize,
    max_dense_dofs: usize,
    pinned: &[u8],
    loaded: usize,
    column_of: &[u32],
    columns: &mut [f32],
    rhs: &mut [f32],
    scratch: &mut [f32],
    residual: &mut [f32],
    direction: &mut [f32],
    a_direction: &mut [f32],
    z: &mut [f32],
    counts: &mut [u32; 7],
    ended: &mut [u32; 6],
)
    requires { making.Ready
        (making.given (system (shape n row_offsets.now cols.now diagonal.now) blocks.now
        (layout perm.now inv_perm.now first.now row_start.now) values.now factored preconditioner.now tolerance max_iterations
        max_dense_dofs) (numbering pinned.now loaded column_of.now) columns.old
        rhs.old scratch.old residual.old direction.old a_direction.old z.old (tally_of counts.old)) }
{
    let system = System {
        pattern: Pattern {
            n,
            row_offsets,
            cols,
            diagonal,
        },
        blocks,
        plan: Plan {
            perm,
            inv_perm,
            first,
            row_start,
        },
        values,
        factored,
        preconditioner,
        settings: Settings {
            tolerance,
            max_iterations,
        },
        max_dense_dofs,
    };
    let table = Table {
        pinned,
        loaded,
        column_of,
    };
    let mut tally = Tally::from(*counts);
    let made = columns_make::front::compute(
        &system,
        &table,
        columns,
        rhs,
        scratch,
        residual,
        direction,
        a_direction,
        z,
        &mut tally,
    );
    *counts = <[u32; 7]>::from(tally);
    *ended = computed::after(*ended, Ok(made));
}

#[unsafe(no_mangle)]
pub extern "C" fn inside_response_from_columns(
    n: usize,
    pinned: &[u8],
    loaded: usize,
    column_of: &[u32],
    columns: &[f32],
    entries: usize,
    particles: &[u32],
    gradients: &[f32],
    out: &mut [f32],
    gain: &mut f32,
    how: &mut u32,
)
    requires { combining.Ready
        (combining.given n (numbering pinned.now loaded column_of.now) columns.now (entered entries particles.now gradients.now) out.old) }
{
    let table = Table {
        pinned,
        loaded,
        column_of,
    };
    let listed = Entries {
        count: entries,
        particles,
        gradients,
    };
    let combined = columns_combine::combine::combine(n, &table, columns, &listed, out);
    let before = Gained {
        gain: *gain,
        how: *how,
    };
    let after = before.after(Ok(combined));
    *gain = after.gain;
    *how = after.how;
}

#[unsafe(no_mangle)]
pub extern "C" fn inside_particle_block(
    n: usize,
    pinned: &[u8],
    loaded: usize,
    column_of: &[u32],
    columns: &[f32],
    particle: usize,
    out: &mut [f32],
    how: &mut u32,
    block: &mut [f32; 4],
)
    requires { blocking.Ready (blocking.given n (numbering pinned.now loaded column_of.now) columns.now particle out.old) }
{
    let table = Table {
        pinned,
        loaded,
        column_of,
    };
    let shown = columns_block::block::block(n, &table, columns, particle, out);
    let held = *block;
    let before = Shown {
        how: *how,
        block: held,
    };
    let after = before.after(Ok(shown));
    let four = after.block;
    *how = after.how;
    *block = four;
}
