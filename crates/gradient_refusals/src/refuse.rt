// What calls are refused for. Tests run in phases, so that none reads past a list's end.
// Each call's list stands whole: the three lines that both have stand round the call's own, which a function of the rest would have to be handed.
// The clause of the rooms is what the tests before them have shown, of a pattern that isn't one yet: no type holds it.
// Lists come one by one, as the doors that take them by &mut have them.
ghost use Rattle.std.specs.Prelude.{◌≡◌, true, ◌≤◌, ◌<◌, length};
ghost use Rattle.law.specs.Limit.{particles};
ghost use Rattle.law.specs.Room.{enough};
ghost use Rattle.law.specs.Refusal.{verdict};
ghost use Rattle.matrix_shape.specs.Shape.{lists};
ghost use Rattle.gradient_refusals.specs.Solving as solving;
ghost use Rattle.gradient_refusals.specs.Updating as updating;

use crate::given::settings_ok;
use gradient_definition::Settings;
use law::refusal::{Refusal, ensure};
use matrix_shape::pattern::Pattern;
use matrix_test::given::pattern_formed;

#[tactic(auto, unfolding(law::specs::Room::enough, matrix_shape::specs::Given::blocks_room, crate::specs::Updating::inverses_room))]
pub fn inverses_room(pattern: &Pattern, blocks: &[f32], preconditioner: &[f32]) -> bool
    requires { (pattern.now.n ≤ particles) × (pattern.now.n < length pattern.now.row_offsets.now) }
    ensures { result ≡ enough true
        (updating.inverses_room pattern.now.n pattern.now.row_offsets.now blocks.now preconditioner.now) }
{
    pattern.blocks_fit(blocks) & (4 * pattern.n <= preconditioner.len())
}

#[tactic(auto, unfolding(law::specs::Refusal::verdict, crate::specs::Updating::refusals), using(matrix_shape::specs::Given::held))]
pub fn updating(pattern: &Pattern, blocks: &[f32], preconditioner: &[f32]) -> Result<(), Refusal>
    ensures { result ≡ verdict (updating.refusals (updating.given (lists pattern.now) blocks.now preconditioner.now)) }
{
    ensure(pattern.n <= law::PARTICLES, Refusal::TooManyParticles)?;
    ensure(pattern.has_room(), Refusal::ShortBuffer)?;
    ensure(
        inverses_room(pattern, blocks, preconditioner),
        Refusal::ShortBuffer,
    )?;
    ensure(pattern_formed(pattern), Refusal::BadPattern)
}

#[tactic(auto, unfolding(law::specs::Room::enough, matrix_shape::specs::Given::blocks_room, crate::specs::Solving::vectors_room))]
pub fn vectors_room(
    pattern: &Pattern,
    blocks: &[f32],
    preconditioner: &[f32],
    b: &[f32],
    x: &[f32],
    residual: &[f32],
    direction: &[f32],
    a_direction: &[f32],
    z: &[f32],
) -> bool
    requires { (pattern.now.n ≤ particles) × (pattern.now.n < length pattern.now.row_offsets.now) }
    ensures { result ≡ enough true
        (solving.vectors_room pattern.now.n pattern.now.row_offsets.now blocks.now preconditioner.now b.now x.now
        residual.now direction.now a_direction.now z.now) }
{
    let m = 2 * pattern.n;
    pattern.blocks_fit(blocks)
        & (4 * pattern.n <= preconditioner.len())
        & (m <= b.len())
        & (m <= x.len())
        & (m <= residual.len())
        & (m <= direction.len())
        & (m <= a_direction.len())
        & (m <= z.len())
}

#[tactic(auto, unfolding(law::specs::Refusal::verdict, crate::specs::Solving::refusals), using(matrix_shape::specs::Given::held))]
pub fn solving(
    pattern: &Pattern,
    blocks: &[f32],
    preconditioner: &[f32],
    b: &[f32],
    settings: Settings,
    x: &[f32],
    residual: &[f32],
    direction: &[f32],
    a_direction: &[f32],
    z: &[f32],
) -> Result<(), Refusal>
    ensures { result ≡ verdict
        (solving.refusals (solving.given (lists pattern.now) blocks.now preconditioner.now b.now settings.tolerance
        settings.max_iterations x.now residual.now direction.now a_direction.now z.now)) }
{
    ensure(pattern.n <= law::PARTICLES, Refusal::TooManyParticles)?;
    ensure(pattern.has_room(), Refusal::ShortBuffer)?;
    ensure(
        vectors_room(
            pattern,
            blocks,
            preconditioner,
            b,
            x,
            residual,
            direction,
            a_direction,
            z,
        ),
        Refusal::ShortBuffer,
    )?;
    ensure(pattern_formed(pattern), Refusal::BadPattern)?;
    ensure(settings_ok(settings), Refusal::BadSettings)
}
