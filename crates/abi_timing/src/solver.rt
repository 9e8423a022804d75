// For measuring only, like measured.rt: the direct solver's work.
ghost use Rattle.std.specs.Prelude.{◌≡◌, ◌*◌, ◌≤◌, length};
ghost use Rattle.matrix_shape.specs.Rows.{at};
ghost use Rattle.plan_fits.specs.Layout.{layout, IsPlan};
ghost use Rattle.factor_load.specs.Load.{Loads};

use matrix_shape::pattern::Pattern;
use plan_fits::plan::Plan;

#[unsafe(no_mangle)]
pub extern "C" fn inside_factorize(
    n: usize,
    row_offsets: &[u32],
    cols: &[u32],
    blocks: &[f32],
    inv_perm: &[u32],
    first: &[u32],
    row_start: &[u32],
    values: &mut [f32],
) -> bool
    requires loads { Loads n row_offsets.now cols.now blocks.now inv_perm.now first.now row_start.now }
    requires values_len { length values.old ≡ at row_start.now (2 * n) }
{
    let pattern = Pattern {
        n,
        row_offsets,
        cols,
        diagonal: &[],
    };
    let plan = Plan {
        perm: &[],
        inv_perm,
        first,
        row_start,
    };
    factor_make::inner::factorize_matrix(&pattern, blocks, &plan, values).is_ok()
}

#[unsafe(no_mangle)]
pub extern "C" fn inside_solve(
    n: usize,
    perm: &[u32],
    inv_perm: &[u32],
    first: &[u32],
    row_start: &[u32],
    values: &[f32],
    b: &[f32],
    x: &mut [f32],
    scratch: &mut [f32],
)
    requires plan { IsPlan n (layout perm.now inv_perm.now first.now row_start.now) }
    requires n_in_bounds { (at row_start.now (2 * n) ≤ length values.now) × (2 * n ≤ length b.now) }
    requires x_len { (length x.old ≡ 2 * n) × (length scratch.old ≡ 2 * n) }
{
    let plan = Plan {
        perm,
        inv_perm,
        first,
        row_start,
    };
    factor_substitution::inner::solve(n, &plan, values, b, x, scratch)
}
