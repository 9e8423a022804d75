// `read` refuses a text or stores its pairs' numbers. It goes over the text twice: first for the counts, when every number is tested and the
// lent room is not touched, then for the pairs.
ghost use Rattle.std.specs.Prelude.{◌≡◌};
ghost use Rattle.law.specs.Refusal.{verdict};
ghost use Rattle.law.specs.Promise.{Promise};
ghost use Rattle.bench_text.specs.Text.{Known};
ghost use Rattle.bench_text.specs.Reading.{tests, given, left, reading, Reads};

use crate::head;
use law::refusal::{Refusal, ensure};

// How many particles and pairs a text has.
#[derive(Clone, Copy, Debug, PartialEq, Eq)]
pub struct Counts {
    pub n: usize,
    pub pairs: usize,
}

// The tests of a text that is as described.
#[tactic(auto, unfolding(law::specs::Refusal::verdict, crate::specs::Reading::tests, crate::specs::Nine::limits))]
fn fits(counts: Counts, room: usize) -> Result<(), Refusal>
    ensures { result ≡ verdict (tests counts.n counts.pairs room) }
{
    ensure(counts.n <= law::PARTICLES, Refusal::TooManyParticles)?;
    ensure(counts.pairs <= law::PAIRS, Refusal::TooManyEntries)?;
    ensure(2 * counts.pairs <= room, Refusal::ShortBuffer)
}

// The rest of `read`, once the text is known to be as described.
#[tactic(auto, unfolding(law::specs::Promise::outcome), using(crate::proofs::Passes::its_tests))]
fn taken(counts: Counts, text: &[u8], numbers: &mut [u32]) -> Result<Counts, Refusal>
    requires { Known text.now counts.n counts.pairs }
    ensures { Promise reading (given text.now numbers.old) (left result numbers.new) }
{
    fits(counts, numbers.len())?;
    let m = 2 * counts.pairs;
    bench_scan::inner::scanned(text, 2, &mut numbers[..m]);
    Ok(counts)
}

// Reads a text: its counts, and its pairs' numbers into the front of the room.
pub fn read(text: &[u8], numbers: &mut [u32]) -> Result<Counts, Refusal>
    ensures { Reads (given text.now numbers.old) (left result numbers.new) }
{
    let Some(counts) = head::head_of(text) else {
        return Err(Refusal::BadText);
    };
    taken(counts, text, numbers)
}
