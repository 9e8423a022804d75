// A pattern as a call is handed it: whether it is well formed, once its lists have room.
ghost use Rattle.std.specs.Prelude.{◌≡◌, ◌≤◌};
ghost use Rattle.law.specs.Limit.{particles};
ghost use Rattle.matrix_shape.specs.Shape.{HasPlaces, is_formed, lists};

use crate::formed;
use matrix_shape::pattern::Pattern;

#[tactic(auto, unfolding(matrix_shape::specs::Given::formed))]
pub fn pattern_formed(pattern: &Pattern) -> bool
    requires few { pattern.now.n ≤ particles }
    requires held { HasPlaces (lists pattern.now) }
    ensures { result ≡ is_formed (lists pattern.now) }
{
    formed::well_formed(pattern, pattern.slots())
}
