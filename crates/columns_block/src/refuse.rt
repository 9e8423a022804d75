// The refusals of a particle's block. Tests run in phases, so that none reads past a list's end.
ghost use Rattle.std.specs.Prelude.{◌≡◌};
ghost use Rattle.law.specs.Refusal.{verdict};
ghost use Rattle.columns_table.specs.Lent.{numbers_of};
ghost use Rattle.columns_block.specs.Blocking.{given, refusals};

use columns_combine::refuse::room;
use columns_table::table::Table;
use law::refusal::{Refusal, ensure};

#[tactic(auto, unfolding(law::specs::Refusal::verdict, crate::specs::Blocking::refusals), using(columns_combine::specs::Combining::has_places))]
pub fn blocking(
    n: usize,
    table: &Table,
    columns: &[f32],
    particle: usize,
    out: &[f32],
) -> Result<(), Refusal>
    ensures { result ≡ verdict (refusals (given n (numbers_of table.now) columns.now particle out.now)) }
{
    ensure(n <= law::PARTICLES, Refusal::TooManyParticles)?;
    ensure(n <= table.pinned.len(), Refusal::ShortBuffer)?;
    ensure(room(n, table, columns, 4 * n, out), Refusal::ShortBuffer)?;
    ensure(particle < n, Refusal::OutOfRange)?;
    ensure(table.is_numbered(n), Refusal::BadPlan)
}
