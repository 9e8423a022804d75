// The refusals of computing the columns. Tests run in phases, so that none reads past a list's end.
// The work lists stay parameters, as the work itself has them.
ghost use Rattle.std.specs.Prelude.{◌≡◌, true, ◌≤◌};
ghost use Rattle.law.specs.Limit.{particles};
ghost use Rattle.law.specs.Refusal.{verdict};
ghost use Rattle.law.specs.Room.{enough};
ghost use Rattle.step_tally.specs.Runs.{fresh};
ghost use Rattle.step_routes.specs.Dense.{IsRoomySystem};
ghost use Rattle.step_routes.specs.System.{system_of};
ghost use Rattle.columns_table.specs.Lent.{numbers_of, HasPlaces};
ghost use Rattle.columns_axes.specs.Axes.{given};
ghost use Rattle.columns_refusals.specs.Refusing.{refusals, later_of, making_room};

use columns_table::table::Table;
use law::refusal::{Refusal, ensure};
use step_routes::dense;
use step_routes::system::System;

// Whether marks, table and columns have room.
#[tactic(auto, unfolding(law::specs::Room::enough, crate::specs::Refusing::making_room, columns_table::specs::Loading::table_room))]
fn room(n: usize, table: &Table, columns: &[f32]) -> bool
    requires { n ≤ particles }
    ensures { result ≡ enough true (making_room n table.now.pinned.now table.now.loaded table.now.column_of.now columns.now) }
{
    table.has_room(n) & table.columns_fit(n, columns)
}

// Pattern, table, plan and settings, once every list has its room.
#[tactic(auto, unfolding(law::specs::Refusal::verdict, crate::specs::Refusing::later), using(matrix_shape::specs::Given::held, matrix_shape::specs::Given::pattern))]
fn later(system: &System, table: &Table) -> Result<(), Refusal>
    requires roomy { IsRoomySystem (system_of system.now) }
    requires held { HasPlaces system.now.pattern.n (numbers_of table.now) }
    ensures { result ≡ verdict (later_of (system_of system.now) (numbers_of table.now)) }
{
    let dense = system.dense();
    let n = system.pattern.n;
    ensure(
        matrix_test::given::pattern_formed(&system.pattern),
        Refusal::BadPattern,
    )?;
    ensure(table.is_numbered(n), Refusal::BadPlan)?;
    ensure(
        dense::plan_fits(dense, &system.pattern, &system.plan),
        Refusal::BadPlan,
    )?;
    ensure(
        dense::plan_short(dense, n, &system.plan),
        Refusal::LongEnvelope,
    )?;
    ensure(
        gradient_refusals::given::settings_ok(system.settings),
        Refusal::BadSettings,
    )
}

// The lent record is not asked: the contract names a fresh one.
#[tactic(auto, unfolding(law::specs::Refusal::verdict, crate::specs::Refusing::refusals), using(step_routes::specs::Dense::roomy, crate::specs::Refusing::has_room))]
pub fn computing(
    system: &System,
    table: &Table,
    columns: &[f32],
    rhs: &[f32],
    scratch: &[f32],
    residual: &[f32],
    direction: &[f32],
    a_direction: &[f32],
    z: &[f32],
) -> Result<(), Refusal>
    ensures { result ≡ verdict (refusals (given (system_of system.now) (numbers_of table.now) columns.now rhs.now scratch.now
        residual.now direction.now a_direction.now z.now fresh)) }
{
    let n = system.pattern.n;
    ensure(n <= law::PARTICLES, Refusal::TooManyParticles)?;
    ensure(
        step_routes::refuse::room(
            system,
            rhs,
            rhs,
            scratch,
            residual,
            direction,
            a_direction,
            z,
        ),
        Refusal::ShortBuffer,
    )?;
    ensure(room(n, table, columns), Refusal::ShortBuffer)?;
    later(system, table)
}
