// The parts of the lent lists that planning needs are lent on.
ghost use Rattle.std.specs.Prelude.{◌≡◌};
ghost use Rattle.matrix_shape.specs.Shape.{lists};
ghost use Rattle.plan_make.specs.Plan.{four};
ghost use Rattle.plan_make.specs.Parts.{five, made};
ghost use Rattle.plan_doors.specs.Planning.{given, Ready, whole_of};

use matrix_shape::pattern::Pattern;
use order_search::graph::Graph;
use plan_make::inner;

pub fn plan(
    pattern: &Pattern,
    perm: &mut [u32],
    inv_perm: &mut [u32],
    first: &mut [u32],
    row_start: &mut [u32],
    degrees: &mut [u32],
    placed: &mut [u32],
    mark: &mut [u32],
    level: &mut [u32],
    queue: &mut [u32],
) -> usize
    requires { Ready
        (given (lists pattern.now) (four perm.old inv_perm.old first.old row_start.old)
        (five degrees.old placed.old mark.old level.old queue.old)) }
    ensures { made result
        (four perm.new inv_perm.new first.new row_start.new)
        (five degrees.new placed.new mark.new level.new queue.new)
        ≡ whole_of
        (given (lists pattern.now) (four perm.old inv_perm.old first.old row_start.old)
        (five degrees.old placed.old mark.old level.old queue.old)) }
{
    let n = pattern.n;
    let starts = n + 1;
    let blocks = pattern.slots();
    let rows = 2 * n;
    let ends = 2 * n + 1;
    let row_offsets = &pattern.row_offsets[..starts];
    let cols = &pattern.cols[..blocks];
    let graph = Graph {
        n,
        row_offsets,
        cols,
    };
    inner::plan(
        &graph,
        &mut perm[..n],
        &mut inv_perm[..n],
        &mut first[..rows],
        &mut row_start[..ends],
        &mut degrees[..n],
        &mut placed[..n],
        &mut mark[..n],
        &mut level[..n],
        &mut queue[..n],
    )
}
