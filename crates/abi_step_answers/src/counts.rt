// The tally over the C ABI: seven counts, the kinds in the order of the rules, module 7.
ghost use Rattle.std.specs.Prelude.{◌≡◌};
ghost use Rattle.step_tally.specs.Count.{counted_of, tally_of, counts_of};

use step_tally::{Kind, Tally};

pub fn counted(counts: [u32; 7], asked: Option<Kind>) -> [u32; 7]
    ensures { result ≡ counts_of (counted_of (tally_of counts) asked) }
{
    <[u32; 7]>::from(step_tally::counted(Tally::from(counts), asked))
}
