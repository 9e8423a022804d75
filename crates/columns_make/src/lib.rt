// The columns of the loaded particles, soft_fem_system_response.rs's compute_columns (rules, module 6): the answer, the refusals and the work.
// The door stands in `columns_doors`.
#![tactic(auto)]

ghost use Rattle.std.specs.Prelude.{◌≡◌};
ghost use Rattle.columns_make.specs.Making.{ended_of};

use step_tally::Tally;

pub mod front;
pub mod inner;

// How many of the solves ended in each way.
#[derive(Clone, Copy, Debug, PartialEq, Eq)]
pub struct Ended {
    pub direct: u32,
    pub zero: u32,
    pub near: u32,
    pub converged: u32,
    pub curvature: u32,
    pub limit: u32,
}

// The call's own record, field by field: six of its seven counts.
impl From<Tally> for Ended {
    ghost from_gives = { λ own ended. ended ≡ ended_of own };

    fn from(own: Tally) -> Ended {
        Ended {
            direct: own.direct,
            zero: own.zero,
            near: own.near,
            converged: own.converged,
            curvature: own.curvature,
            limit: own.limit,
        }
    }
}
