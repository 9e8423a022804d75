// For measuring only: inner functions under C names, so that their time can be told from a door's own checking. They
// require what the doors test, so nothing but the comparison calls them, on input that the doors have accepted.
ghost use Rattle.std.specs.Prelude.{◌≡◌, ◌*◌, ◌≤◌, ◌<◌, length};
ghost use Rattle.law.specs.Limit.{particles};
ghost use Rattle.matrix_shape.specs.Rows.{at, Held, Rows};
ghost use Rattle.matrix_shape.specs.Shape.{shape, IsPattern};
ghost use Rattle.matrix_shape.specs.Index.{Line};
ghost use Rattle.matrix_build.specs.Build.{Ready};
ghost use Rattle.matrix_pinned.specs.Marked.{Reach};
ghost use Rattle.plan_make.specs.Plan.{four};
ghost use Rattle.plan_make.specs.Parts.{five, Ground, Room, Desk};
ghost use Rattle.gradient_definition.specs.Vectors.{Matrix};
ghost use Rattle.gradient_definition.specs.Solve.{Sized};
ghost use Rattle.gradient_definition.specs.Inverse.{Slots};

use gradient_definition::{Outcome, Settings};
use matrix_shape::pattern::Pattern;
use order_search::graph::Graph;

#[unsafe(no_mangle)]
pub extern "C" fn inside_build(
    n: usize,
    count: usize,
    pairs: &[u32],
    row_offsets: &mut [u32],
    cols: &mut [u32],
    diagonal: &mut [u32],
    work: &mut [u32],
) -> usize
    requires { Ready n count pairs.now row_offsets.old cols.old diagonal.old work.old }
{
    matrix_build::inner::build(n, count, pairs, row_offsets, cols, diagonal, work)
}

#[unsafe(no_mangle)]
pub extern "C" fn inside_well_formed(
    n: usize,
    m: usize,
    row_offsets: &[u32],
    cols: &[u32],
    diagonal: &[u32],
) -> bool
    requires { (n ≤ particles) × Held n m row_offsets.now cols.now diagonal.now }
{
    let pattern = Pattern {
        n,
        row_offsets,
        cols,
        diagonal,
    };
    matrix_test::formed::well_formed(&pattern, m)
}

#[unsafe(no_mangle)]
pub extern "C" fn inside_block_index(row_offsets: &[u32], cols: &[u32], row: usize, col: u32) -> u32
    requires { Line row_offsets.now cols.now row }
{
    matrix_shape::index::block_index(row_offsets, cols, row, col)
}

#[unsafe(no_mangle)]
pub extern "C" fn inside_mul(
    n: usize,
    row_offsets: &[u32],
    cols: &[u32],
    blocks: &[f32],
    x: &[f32],
    out: &mut [f32],
)
    requires rows { Rows n row_offsets.now cols.now }
    requires n_in_bounds { (4 * at row_offsets.now n ≤ length blocks.now) × (2 * n ≤ length x.now) × (2 * n ≤ length out.old) }
{
    let pattern = Pattern {
        n,
        row_offsets,
        cols,
        diagonal: &[],
    };
    matrix_values::inner::mul(&pattern, blocks, x, out)
}

#[unsafe(no_mangle)]
pub extern "C" fn inside_make_dirichlet(
    n: usize,
    row_offsets: &[u32],
    cols: &[u32],
    diagonal: &[u32],
    row: usize,
    blocks: &mut [f32],
)
    requires pattern { IsPattern (shape n row_offsets.now cols.now diagonal.now) }
    requires row_lt_n { row < n }
    requires n_in_bounds { 4 * at row_offsets.now n ≤ length blocks.old }
{
    let pattern = Pattern {
        n,
        row_offsets,
        cols,
        diagonal,
    };
    matrix_pinned::pinned::make_dirichlet(&pattern, row, blocks)
}

#[unsafe(no_mangle)]
pub extern "C" fn inside_make_dirichlet_marked(
    n: usize,
    row_offsets: &[u32],
    cols: &[u32],
    diagonal: &[u32],
    marks: &[u8],
    blocks: &mut [f32],
)
    requires { Reach n row_offsets.now cols.now diagonal.now marks.now blocks.old }
{
    let pattern = Pattern {
        n,
        row_offsets,
        cols,
        diagonal,
    };
    matrix_pinned::marked::make_dirichlet_marked(&pattern, marks, blocks)
}

#[unsafe(no_mangle)]
pub extern "C" fn inside_plan(
    row_offsets: &[u32],
    cols: &[u32],
    perm: &mut [u32],
    inv_perm: &mut [u32],
    first: &mut [u32],
    row_start: &mut [u32],
    degrees: &mut [u32],
    placed: &mut [u32],
    mark: &mut [u32],
    level: &mut [u32],
    queue: &mut [u32],
) -> usize
    requires { Ground (length perm.old) row_offsets.now cols.now ×
        (Room (length perm.old) (four perm.old inv_perm.old first.old row_start.old)
        × Desk (length perm.old) (five degrees.old placed.old mark.old level.old queue.old)) }
{
    let n = perm.len();
    let graph = Graph {
        n,
        row_offsets,
        cols,
    };
    plan_make::inner::plan(
        &graph, perm, inv_perm, first, row_start, degrees, placed, mark, level, queue,
    )
}

#[unsafe(no_mangle)]
pub extern "C" fn inside_update_preconditioner(
    n: usize,
    diagonal: &[u32],
    blocks: &[f32],
    preconditioner: &mut [f32],
)
    requires slots { Slots n diagonal.now blocks.now }
    requires n_in_bounds { 4 * n ≤ length preconditioner.old }
{
    let pattern = Pattern {
        n,
        row_offsets: &[],
        cols: &[],
        diagonal,
    };
    gradient_preconditioner::inner::update_preconditioner(&pattern, blocks, preconditioner)
}

fn turns(o: Outcome) -> usize {
    match o {
        Outcome::Zero { count }
        | Outcome::Near { count, .. }
        | Outcome::Converged { count, .. }
        | Outcome::Curvature { count, .. }
        | Outcome::Limit { count, .. } => count,
    }
}

// Answers the count.
#[unsafe(no_mangle)]
pub extern "C" fn inside_conjugate_gradient(
    n: usize,
    row_offsets: &[u32],
    cols: &[u32],
    blocks: &[f32],
    preconditioner: &[f32],
    b: &[f32],
    tolerance: f32,
    limit: usize,
    x: &mut [f32],
    residual: &mut [f32],
    direction: &mut [f32],
    a_direction: &mut [f32],
    z: &mut [f32],
) -> usize
    requires matrix { Matrix n row_offsets.now cols.now blocks.now }
    requires sized { Sized n preconditioner.now x.old residual.old direction.old a_direction.old z.old }
    requires n_in_bounds { 2 * n ≤ length b.now }
{
    let pattern = Pattern {
        n,
        row_offsets,
        cols,
        diagonal: &[],
    };
    let settings = Settings {
        tolerance,
        max_iterations: limit,
    };
    turns(gradient_solve::inner::solve(
        &pattern,
        blocks,
        preconditioner,
        b,
        settings,
        x,
        residual,
        direction,
        a_direction,
        z,
    ))
}
