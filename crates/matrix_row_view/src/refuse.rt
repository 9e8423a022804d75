// What a call on one row is refused by. Tests run in phases, so that none reads past a list's end.
ghost use Rattle.std.specs.Prelude.{◌≡◌};
ghost use Rattle.law.specs.Refusal.{verdict};
ghost use Rattle.matrix_row_view.specs.Showing.{handed, refusals};

use crate::rows::Rows;
use law::refusal::{Refusal, ensure};

#[tactic(auto, unfolding(law::specs::Refusal::verdict, crate::specs::Showing::refusals))]
pub fn row(rows: &Rows, row: usize) -> Result<(), Refusal>
    ensures { result ≡ verdict (refusals (handed rows.now row)) }
{
    ensure(rows.n <= law::PARTICLES, Refusal::TooManyParticles)?;
    ensure(rows.has_room(), Refusal::ShortBuffer)?;
    ensure(row < rows.n, Refusal::OutOfRange)
}
