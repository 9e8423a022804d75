// The refusals of the two building calls. Tests run in phases, so that none reads past a list's end.
// Two lists of tests: the blocks' room is asked for inside the other one, so one function for both would be no plainer.
ghost use Rattle.std.specs.Prelude.{◌≡◌, true, ◌≤◌};
ghost use Rattle.law.specs.Limit.{particles, pairs as pairLimit};
ghost use Rattle.law.specs.Room.{enough};
ghost use Rattle.law.specs.Refusal.{verdict};
ghost use Rattle.matrix_building.specs.Building as building;
ghost use Rattle.matrix_building.specs.FromPairs as frompairs;

use law::refusal::{Refusal, ensure};
use matrix_pairs::given::pairs_ok;

#[tactic(auto, unfolding(law::specs::Room::enough, crate::specs::Building::lists_room))]
pub fn lists_room(
    n: usize,
    count: usize,
    pairs: &[u32],
    row_offsets: &[u32],
    cols: &[u32],
    diagonal: &[u32],
    work: &[u32],
) -> bool
    requires { (n ≤ particles) × (count ≤ pairLimit) }
    ensures { result ≡ enough true
        (building.lists_room (building.given n count pairs.now row_offsets.now cols.now diagonal.now
        work.now)) }
{
    let k = 2 * count;
    (k <= pairs.len())
        & (n + 1 <= row_offsets.len())
        & (n + k <= cols.len())
        & (n <= diagonal.len())
        & (k <= work.len())
}

#[tactic(auto, unfolding(law::specs::Refusal::verdict, crate::specs::Building::refusals), using(crate::proofs::Building::pairs_given))]
pub fn building(
    n: usize,
    count: usize,
    pairs: &[u32],
    row_offsets: &[u32],
    cols: &[u32],
    diagonal: &[u32],
    work: &[u32],
) -> Result<(), Refusal>
    ensures { result ≡ verdict
        (building.refusals (building.given n count pairs.now row_offsets.now cols.now diagonal.now
        work.now)) }
{
    ensure(n <= law::PARTICLES, Refusal::TooManyParticles)?;
    ensure(count <= law::PAIRS, Refusal::TooManyEntries)?;
    ensure(
        lists_room(n, count, pairs, row_offsets, cols, diagonal, work),
        Refusal::ShortBuffer,
    )?;
    ensure(pairs_ok(n, count, pairs), Refusal::OutOfRange)
}

#[tactic(auto, unfolding(law::specs::Room::enough, crate::specs::FromPairs::values_room))]
pub fn fresh_room(n: usize, count: usize, blocks: &[f32]) -> bool
    requires { (n ≤ particles) × (count ≤ pairLimit) }
    ensures { result ≡ enough true (frompairs.values_room n count blocks.now) }
{
    4 * (n + 2 * count) <= blocks.len()
}

#[tactic(auto, unfolding(law::specs::Refusal::verdict, crate::specs::FromPairs::refusals), using(crate::proofs::Building::pairs_given))]
pub fn from_pairs(
    n: usize,
    count: usize,
    pairs: &[u32],
    row_offsets: &[u32],
    cols: &[u32],
    diagonal: &[u32],
    blocks: &[f32],
    work: &[u32],
) -> Result<(), Refusal>
    ensures { result ≡ verdict
        (frompairs.refusals (frompairs.given (building.given n count pairs.now row_offsets.now cols.now
        diagonal.now work.now) blocks.now)) }
{
    ensure(n <= law::PARTICLES, Refusal::TooManyParticles)?;
    ensure(count <= law::PAIRS, Refusal::TooManyEntries)?;
    ensure(
        lists_room(n, count, pairs, row_offsets, cols, diagonal, work),
        Refusal::ShortBuffer,
    )?;
    ensure(fresh_room(n, count, blocks), Refusal::ShortBuffer)?;
    ensure(pairs_ok(n, count, pairs), Refusal::OutOfRange)
}
