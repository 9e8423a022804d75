// The refusals of clearing and loading. Tests run in phases, so that none reads past a list's end.
ghost use Rattle.std.specs.Prelude.{◌≡◌};
ghost use Rattle.law.specs.Refusal.{verdict};
ghost use Rattle.columns_table.specs.Clearing as clearing;
ghost use Rattle.columns_table.specs.Loading as loading;

use crate::table::{self, Table};
use law::refusal::{Refusal, ensure};

#[tactic(auto, unfolding(law::specs::Refusal::verdict, crate::specs::Clearing::refusals))]
pub fn clearing(n: usize, column_of: &[u32]) -> Result<(), Refusal>
    ensures { result ≡ verdict (clearing.refusals (clearing.given n column_of.now)) }
{
    ensure(n <= law::PARTICLES, Refusal::TooManyParticles)?;
    ensure(n <= column_of.len(), Refusal::ShortBuffer)
}

#[tactic(auto, unfolding(law::specs::Refusal::verdict, crate::specs::Loading::refusals), using(crate::specs::Loading::held))]
pub fn loading(n: usize, table: &Table, particle: usize) -> Result<(), Refusal>
    ensures { result ≡ verdict (loading.refusals
        (loading.given n table.now.pinned.now table.now.loaded particle table.now.column_of.now)) }
{
    ensure(n <= law::PARTICLES, Refusal::TooManyParticles)?;
    let is_new = table::is_new(n, table.pinned, table.column_of, particle);
    let has_number = table.loaded < law::COLUMNS;
    ensure(!is_new | has_number, Refusal::TooManyEntries)?;
    ensure(table.has_room(n), Refusal::ShortBuffer)?;
    ensure(particle < n, Refusal::OutOfRange)?;
    ensure(table.is_numbered(n), Refusal::BadPlan)
}
