// The refusals of a step's calls for room, pattern, plan and settings. Tests run in phases, so that none reads past a list's end.
// The lists to be written come as the calls have them, one by one; `dense` stands beside a plan, as in dense.rt.
ghost use Rattle.std.specs.Prelude.{◌≡◌, ◌≤◌};
ghost use Rattle.law.specs.Limit.{particles};
ghost use Rattle.law.specs.Refusal.{verdict};
ghost use Rattle.matrix_shape.specs.Shape.{lists};
ghost use Rattle.plan_fits.specs.Layout.{plan_lists};
ghost use Rattle.step_routes.specs.Dense.{system_held, structural_of, later_of, IsRoomy, IsRoomySystem};
ghost use Rattle.step_routes.specs.System.{system_of};

use crate::dense;
use crate::system::System;
use law::refusal::{Refusal, ensure};
use matrix_shape::pattern::Pattern;
use plan_fits::plan::Plan;

// Whether a step solve's lists have room.
#[tactic(auto, unfolding(crate::specs::Dense::step_held), using(matrix_shape::specs::Given::held))]
pub fn room(
    system: &System,
    b: &[f32],
    x: &[f32],
    scratch: &[f32],
    residual: &[f32],
    direction: &[f32],
    a_direction: &[f32],
    z: &[f32],
) -> bool
    requires { system.now.pattern.n ≤ particles }
    ensures { result ≡ system_held (system_of system.now) b.now x.now scratch.now residual.now
        direction.now a_direction.now z.now }
{
    if !system.pattern.has_room() {
        return false;
    }
    if !gradient_refusals::refuse::vectors_room(
        &system.pattern,
        system.blocks,
        system.preconditioner,
        b,
        x,
        residual,
        direction,
        a_direction,
        z,
    ) {
        return false;
    }
    let dense = system.dense();
    dense::plan_held(dense, system.pattern.n, &system.plan, system.values)
        & dense::scratch_room(dense, system.pattern.n, scratch)
}

// Pattern and plan, once every list has its room.
#[tactic(auto, unfolding(law::specs::Refusal::verdict, crate::specs::Dense::structural), using(matrix_shape::specs::Given::held, matrix_shape::specs::Given::pattern))]
pub fn structure(dense: bool, pattern: &Pattern, plan: &Plan) -> Result<(), Refusal>
    requires { IsRoomy dense (lists pattern.now) (plan_lists plan.now) }
    ensures { result ≡ verdict (structural_of dense (lists pattern.now) (plan_lists plan.now)) }
{
    ensure(
        matrix_test::given::pattern_formed(pattern),
        Refusal::BadPattern,
    )?;
    ensure(dense::plan_fits(dense, pattern, plan), Refusal::BadPlan)?;
    ensure(
        dense::plan_short(dense, pattern.n, plan),
        Refusal::LongEnvelope,
    )
}

// The last four tests of a step solve.
#[tactic(auto, unfolding(law::specs::Refusal::verdict, crate::specs::Dense::structural, crate::specs::Dense::later))]
pub fn later(system: &System) -> Result<(), Refusal>
    requires { IsRoomySystem (system_of system.now) }
    ensures { result ≡ verdict (later_of (system_of system.now)) }
{
    structure(system.dense(), &system.pattern, &system.plan)?;
    ensure(
        gradient_refusals::given::settings_ok(system.settings),
        Refusal::BadSettings,
    )
}
