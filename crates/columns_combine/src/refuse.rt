// The refusals of a combination. Tests run in phases, so that none reads past a list's end.
ghost use Rattle.std.specs.Prelude.{◌≡◌, true, ◌≤◌};
ghost use Rattle.law.specs.Limit.{particles};
ghost use Rattle.law.specs.Room.{enough};
ghost use Rattle.law.specs.Refusal.{verdict};
ghost use Rattle.step_entries.specs.Lent.{entered_of};
ghost use Rattle.columns_table.specs.Lent.{numbers_of};
ghost use Rattle.columns_combine.specs.Combining.{columns_room, given, refusals};

use columns_table::table::Table;
use law::refusal::{Refusal, ensure};
use step_entries::entries::Entries;

// Room for the table, for the columns and for `need` floats in out.
#[tactic(auto, unfolding(law::specs::Room::enough, crate::specs::Combining::columns_room))]
pub fn room(n: usize, table: &Table, columns: &[f32], need: usize, out: &[f32]) -> bool
    requires { n ≤ particles }
    ensures { result ≡ enough true (columns_room n table.now.loaded table.now.column_of.now columns.now need out.now) }
{
    (n <= table.column_of.len()) & table.columns_fit(n, columns) & (need <= out.len())
}

#[tactic(auto, unfolding(law::specs::Refusal::verdict, crate::specs::Combining::refusals), using(step_entries::specs::Entries::has_names, crate::specs::Combining::has_places, crate::specs::Combining::has_marks))]
pub fn combining(
    n: usize,
    table: &Table,
    columns: &[f32],
    entries: &Entries,
    out: &[f32],
) -> Result<(), Refusal>
    ensures { result ≡ verdict (refusals (given n (numbers_of table.now) columns.now (entered_of entries.now) out.now)) }
{
    ensure(n <= law::PARTICLES, Refusal::TooManyParticles)?;
    ensure(entries.count <= law::ENTRIES, Refusal::TooManyEntries)?;
    ensure(room(n, table, columns, 2 * n, out), Refusal::ShortBuffer)?;
    ensure(entries.has_room(n, table.pinned), Refusal::ShortBuffer)?;
    ensure(entries.all_below(n), Refusal::OutOfRange)?;
    ensure(table.is_numbered(n), Refusal::BadPlan)
}
