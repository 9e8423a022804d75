// The first pass: a text's two counts, if the text is as described.
ghost use Rattle.std.specs.Prelude.{◌≡◌};
ghost use Rattle.bench_text.specs.Head.{head_of, counted_of};

use crate::inner::Counts;
use bench_scan::inner::Stand;

// k numbers are just right for the pair count.
#[tactic(auto, unfolding(crate::specs::Head::counted_of))]
fn counts(k: usize, n: u32, pairs: u32) -> Option<Counts>
    ensures { result ≡ counted_of k n pairs }
{
    let n = law::wide(n);
    let pairs = law::wide(pairs);
    (k == 2 + 2 * pairs).then_some(Counts { n, pairs })
}

pub fn head_of(text: &[u8]) -> Option<Counts>
    ensures { result ≡ head_of text.now }
{
    if law::BYTES < text.len() {
        return None;
    }
    let mut two = [0u32; 2];
    match bench_scan::inner::scanned(text, 0, &mut two)? {
        Stand::Gap(k) => counts(k, two[0], two[1]),
        Stand::Word(_, _) => None,
    }
}
