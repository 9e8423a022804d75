// One count of a record by value.
ghost use Rattle.std.specs.Prelude.{◌≡◌, ◌<◌};
ghost use Rattle.law.specs.Limit.{tally};
ghost use Rattle.step_tally.specs.Count.{total_of, one_more};

use crate::{Kind, Tally};

// Below the cap no count can overflow. A field by its kind is a match: counts in an array, by the kind as a number, would lose the fields' names.
pub fn one_more(mut t: Tally, k: Kind) -> Tally
    requires { total_of t < tally }
    ensures { result ≡ one_more t k }
{
    match k {
        Kind::Direct => {
            t.direct += 1;
            t
        }
        Kind::Zero => {
            t.zero += 1;
            t
        }
        Kind::Near => {
            t.near += 1;
            t
        }
        Kind::Converged => {
            t.converged += 1;
            t
        }
        Kind::Curvature => {
            t.curvature += 1;
            t
        }
        Kind::Limit => {
            t.limit += 1;
            t
        }
        Kind::Refused => {
            t.refused += 1;
            t
        }
    }
}
