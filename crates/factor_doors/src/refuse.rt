// What calls are refused by. Tests run in phases, so that none reads past a list's end; each list is a call's own, in the order of the numbers.
ghost use Rattle.std.specs.Prelude.{◌≡◌, true, ◌*◌, ◌≤◌, ◌<◌, leb, length};
ghost use Rattle.law.specs.Limit.{particles, envelope};
ghost use Rattle.law.specs.Room.{enough};
ghost use Rattle.law.specs.Refusal.{verdict};
ghost use Rattle.matrix_shape.specs.Shape.{lists};
ghost use Rattle.plan_fits.specs.Layout.{plan_lists, length_of};
ghost use Rattle.factor_doors.specs.Factorizing as factorizing;
ghost use Rattle.factor_doors.specs.Solving as solving;

use law::refusal::{Refusal, ensure};
use matrix_shape::pattern::Pattern;
use matrix_test::given::pattern_formed;
use plan_fits::plan::Plan;

// Whether the factor is within the limit.
fn short(n: usize, plan: &Plan) -> bool
    requires { (n ≤ particles) × (2 * n < length plan.now.row_start.now) }
    ensures { result ≡ leb (length_of n (plan_lists plan.now)) envelope }
{
    plan.factor_len(n) <= law::ENVELOPE
}

#[tactic(auto, unfolding(law::specs::Room::enough, matrix_shape::specs::Given::blocks_room, crate::specs::Factorizing::values_room))]
fn factor_room(pattern: &Pattern, blocks: &[f32], plan: &Plan, values: &[f32]) -> bool
    requires n_in_bounds { pattern.now.n < length pattern.now.row_offsets.now }
    requires n_le_particles { (pattern.now.n ≤ particles) × (2 * pattern.now.n < length plan.now.row_start.now) }
    ensures { result ≡ enough true
        (factorizing.values_room pattern.now.n pattern.now.row_offsets.now blocks.now plan.now.row_start.now values.now) }
{
    pattern.blocks_fit(blocks) & (plan.factor_len(pattern.n) <= values.len())
}

#[tactic(auto, unfolding(law::specs::Refusal::verdict, crate::specs::Factorizing::refusals), using(matrix_shape::specs::Given::held, matrix_shape::specs::Given::pattern, plan_fits::specs::Given::laid))]
pub fn factorizing(
    pattern: &Pattern,
    blocks: &[f32],
    plan: &Plan,
    values: &[f32],
) -> Result<(), Refusal>
    ensures { result ≡ verdict
        (factorizing.refusals (factorizing.given (lists pattern.now) blocks.now (plan_lists plan.now) values.now)) }
{
    ensure(pattern.n <= law::PARTICLES, Refusal::TooManyParticles)?;
    ensure(pattern.has_room(), Refusal::ShortBuffer)?;
    ensure(plan.has_room(pattern.n), Refusal::ShortBuffer)?;
    ensure(
        factor_room(pattern, blocks, plan, values),
        Refusal::ShortBuffer,
    )?;
    ensure(pattern_formed(pattern), Refusal::BadPattern)?;
    ensure(plan_inside::inside::fits(pattern, plan), Refusal::BadPlan)?;
    ensure(short(pattern.n, plan), Refusal::LongEnvelope)
}

#[tactic(auto, unfolding(law::specs::Room::enough, crate::specs::Solving::values_room))]
fn solve_room(n: usize, plan: &Plan, values: &[f32], b: &[f32], x: &[f32], scratch: &[f32]) -> bool
    requires { (n ≤ particles) × (2 * n < length plan.now.row_start.now) }
    ensures { result ≡ enough true
        (solving.values_room n plan.now.row_start.now values.now b.now x.now scratch.now) }
{
    let m = 2 * n;
    (plan.factor_len(n) <= values.len()) & (m <= b.len()) & (m <= x.len()) & (m <= scratch.len())
}

#[tactic(auto, unfolding(law::specs::Refusal::verdict, crate::specs::Solving::refusals), using(plan_fits::specs::Given::laid))]
pub fn solving(
    n: usize,
    plan: &Plan,
    values: &[f32],
    b: &[f32],
    x: &[f32],
    scratch: &[f32],
) -> Result<(), Refusal>
    ensures { result ≡ verdict
        (solving.refusals (solving.given n (plan_lists plan.now) values.now b.now x.now scratch.now)) }
{
    ensure(n <= law::PARTICLES, Refusal::TooManyParticles)?;
    ensure(plan.has_room(n), Refusal::ShortBuffer)?;
    ensure(
        solve_room(n, plan, values, b, x, scratch),
        Refusal::ShortBuffer,
    )?;
    ensure(plan_test::plan::plan_ok(n, plan), Refusal::BadPlan)?;
    ensure(short(n, plan), Refusal::LongEnvelope)
}
