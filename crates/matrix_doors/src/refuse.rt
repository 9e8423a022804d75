// What calls are refused by. Tests run in phases, so that none reads past a list's end; each list is a call's own, in the order of the numbers.
// One function for what they share would be no plainer: what differs stands between the shared tests.
ghost use Rattle.std.specs.Prelude.{◌≡◌, true, ◌≤◌, ◌<◌, length};
ghost use Rattle.law.specs.Limit.{particles};
ghost use Rattle.law.specs.Room.{enough};
ghost use Rattle.law.specs.Refusal.{verdict};
ghost use Rattle.matrix_shape.specs.Shape.{lists};
ghost use Rattle.matrix_doors.specs.Indexing as indexing;
ghost use Rattle.matrix_doors.specs.Clearing as clearing;
ghost use Rattle.matrix_doors.specs.Multiplying as multiplying;
ghost use Rattle.matrix_doors.specs.Pinning as pinning;
ghost use Rattle.matrix_doors.specs.PinningMarked as pinningmarked;

use law::refusal::{Refusal, ensure};
use matrix_shape::pattern::Pattern;
use matrix_test::given::pattern_formed;

// For a call on one row of a pattern.
#[tactic(auto, unfolding(law::specs::Refusal::verdict, crate::specs::Indexing::refusals), using(matrix_shape::specs::Given::held))]
pub fn row(pattern: &Pattern, row: usize) -> Result<(), Refusal>
    ensures { result ≡ verdict (indexing.refusals (indexing.given (lists pattern.now) row)) }
{
    ensure(pattern.n <= law::PARTICLES, Refusal::TooManyParticles)?;
    ensure(pattern.has_room(), Refusal::ShortBuffer)?;
    ensure(row < pattern.n, Refusal::OutOfRange)?;
    ensure(pattern_formed(pattern), Refusal::BadPattern)
}

#[tactic(auto, unfolding(law::specs::Refusal::verdict, crate::specs::Clearing::refusals), using(matrix_shape::specs::Given::held))]
pub fn clearing(pattern: &Pattern, blocks: &[f32]) -> Result<(), Refusal>
    ensures { result ≡ verdict (clearing.refusals (clearing.given (lists pattern.now) blocks.now)) }
{
    ensure(pattern.n <= law::PARTICLES, Refusal::TooManyParticles)?;
    ensure(pattern.has_room(), Refusal::ShortBuffer)?;
    ensure(pattern.blocks_fit(blocks), Refusal::ShortBuffer)?;
    ensure(pattern_formed(pattern), Refusal::BadPattern)
}

#[tactic(auto, unfolding(law::specs::Room::enough, crate::specs::Multiplying::values_room))]
pub fn values_room(pattern: &Pattern, blocks: &[f32], x: &[f32], out: &[f32]) -> bool
    requires { (pattern.now.n ≤ particles) × (pattern.now.n < length pattern.now.row_offsets.now) }
    ensures { result ≡ enough true
        (multiplying.values_room pattern.now.n pattern.now.row_offsets.now blocks.now x.now out.now) }
{
    let m = 2 * pattern.n;
    (4 * pattern.slots() <= blocks.len()) & (m <= x.len()) & (m <= out.len())
}

#[tactic(auto, unfolding(law::specs::Refusal::verdict, crate::specs::Multiplying::refusals), using(matrix_shape::specs::Given::held))]
pub fn multiplying(pattern: &Pattern, blocks: &[f32], x: &[f32], out: &[f32]) -> Result<(), Refusal>
    ensures { result ≡ verdict
        (multiplying.refusals (multiplying.given (lists pattern.now) blocks.now x.now out.now)) }
{
    ensure(pattern.n <= law::PARTICLES, Refusal::TooManyParticles)?;
    ensure(pattern.has_room(), Refusal::ShortBuffer)?;
    ensure(values_room(pattern, blocks, x, out), Refusal::ShortBuffer)?;
    ensure(pattern_formed(pattern), Refusal::BadPattern)
}

#[tactic(auto, unfolding(law::specs::Refusal::verdict, crate::specs::Pinning::refusals), using(matrix_shape::specs::Given::held))]
pub fn pinning(pattern: &Pattern, row: usize, blocks: &[f32]) -> Result<(), Refusal>
    ensures { result ≡ verdict (pinning.refusals (pinning.given (lists pattern.now) row blocks.now)) }
{
    ensure(pattern.n <= law::PARTICLES, Refusal::TooManyParticles)?;
    ensure(pattern.has_room(), Refusal::ShortBuffer)?;
    ensure(pattern.blocks_fit(blocks), Refusal::ShortBuffer)?;
    ensure(row < pattern.n, Refusal::OutOfRange)?;
    ensure(pattern_formed(pattern), Refusal::BadPattern)
}

#[tactic(auto, unfolding(law::specs::Room::enough, crate::specs::PinningMarked::marked_room))]
pub fn marked_room(pattern: &Pattern, marks: &[u8], blocks: &[f32]) -> bool
    requires { pattern.now.n < length pattern.now.row_offsets.now }
    ensures { result ≡ enough true
        (pinningmarked.marked_room pattern.now.n pattern.now.row_offsets.now marks.now blocks.now) }
{
    (pattern.n <= marks.len()) & (4 * pattern.slots() <= blocks.len())
}

#[tactic(auto, unfolding(law::specs::Refusal::verdict, crate::specs::PinningMarked::refusals), using(matrix_shape::specs::Given::held))]
pub fn pinning_marked(pattern: &Pattern, marks: &[u8], blocks: &[f32]) -> Result<(), Refusal>
    ensures { result ≡ verdict
        (pinningmarked.refusals (pinningmarked.given (lists pattern.now) marks.now blocks.now)) }
{
    ensure(pattern.n <= law::PARTICLES, Refusal::TooManyParticles)?;
    ensure(pattern.has_room(), Refusal::ShortBuffer)?;
    ensure(marked_room(pattern, marks, blocks), Refusal::ShortBuffer)?;
    ensure(pattern_formed(pattern), Refusal::BadPattern)
}
