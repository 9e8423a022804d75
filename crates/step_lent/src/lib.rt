// The step's counting calls over a record by value: each keeps it in a local, lends that to the very door of `step_doors`, and hands it back beside
// the answer. So covered code goes through the doors, as the replay does.
#![tactic(auto)]

use step_tally::Tally;

pub mod inner;

// What a call answered, and the record after it.
#[derive(Clone, Copy)]
pub struct After<T> {
    pub answer: T,
    pub tally: Tally,
}
