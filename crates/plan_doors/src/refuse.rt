// Why planning is refused, as far as it is known before the work. Tests run in phases, so that none reads past a list's end.
ghost use Rattle.std.specs.Prelude.{◌≡◌, true, ◌≤◌};
ghost use Rattle.law.specs.Limit.{particles};
ghost use Rattle.law.specs.Room.{enough};
ghost use Rattle.law.specs.Refusal.{verdict};
ghost use Rattle.matrix_shape.specs.Shape.{lists};
ghost use Rattle.plan_make.specs.Plan.{four};
ghost use Rattle.plan_make.specs.Parts.{five};
ghost use Rattle.plan_doors.specs.Planning.{given, planning_room, early};

use law::refusal::{Refusal, ensure};
use matrix_shape::pattern::Pattern;
use matrix_test::given;
use plan_fits::plan::Plan;

// Whether the plan's lists and the work lists have room.
#[tactic(auto, unfolding(law::specs::Room::enough, plan_fits::specs::Given::plan_room, crate::specs::Planning::planning_room))]
fn planning_room(
    n: usize,
    plan: &Plan,
    degrees: &[u32],
    placed: &[u32],
    mark: &[u32],
    level: &[u32],
    queue: &[u32],
) -> bool
    requires { n ≤ particles }
    ensures { result ≡ enough true
        (planning_room n (four plan.now.perm.now plan.now.inv_perm.now plan.now.first.now plan.now.row_start.now)
        (five degrees.now placed.now mark.now level.now queue.now)) }
{
    plan.has_room(n)
        & (n <= degrees.len())
        & (n <= placed.len())
        & (n <= mark.len())
        & (n <= level.len())
        & (n <= queue.len())
}

#[tactic(auto, unfolding(law::specs::Refusal::verdict, crate::specs::Planning::early), using(matrix_shape::specs::Given::held))]
pub fn planning(
    pattern: &Pattern,
    perm: &[u32],
    inv_perm: &[u32],
    first: &[u32],
    row_start: &[u32],
    degrees: &[u32],
    placed: &[u32],
    mark: &[u32],
    level: &[u32],
    queue: &[u32],
) -> Result<(), Refusal>
    ensures { result ≡ verdict
        (early
        (given (lists pattern.now) (four perm.now inv_perm.now first.now row_start.now)
        (five degrees.now placed.now mark.now level.now queue.now))) }
{
    let plan = Plan {
        perm,
        inv_perm,
        first,
        row_start,
    };
    ensure(pattern.n <= law::PARTICLES, Refusal::TooManyParticles)?;
    ensure(pattern.has_room(), Refusal::ShortBuffer)?;
    ensure(
        planning_room(pattern.n, &plan, degrees, placed, mark, level, queue),
        Refusal::ShortBuffer,
    )?;
    ensure(given::pattern_formed(pattern), Refusal::BadPattern)
}
