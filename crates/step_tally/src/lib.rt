// The tally of step solves (rules, module 7): seven counts that a caller lends, and one thin function that adds to one of them.
// The work is `counted`, on a record by value; `count` is a thin function over it.
#![tactic(auto)]

ghost use Rattle.std.specs.Prelude.{◌≡◌};
ghost use Rattle.step_tally.specs.Count.{total_of, added_of, counted_of, tally_of, counts_of};
ghost use Rattle.step_tally.specs.Runs as runs;

mod inner;

#[derive(Clone, Copy, Default)]
pub struct Tally {
    pub direct: u32,
    pub zero: u32,
    pub near: u32,
    pub converged: u32,
    pub curvature: u32,
    pub limit: u32,
    pub refused: u32,
}

// How a step solve ended.
#[derive(Clone, Copy)]
pub enum Kind {
    Direct,
    Zero,
    Near,
    Converged,
    Curvature,
    Limit,
    Refused,
}

// The seven counts as a list has them, in the order of the kinds; and back.
impl From<[u32; 7]> for Tally {
    ghost from_gives = { λ counts t. t ≡ tally_of counts };

    fn from(counts: [u32; 7]) -> Tally {
        let [direct, zero, near, converged, curvature, limit, refused] = counts;
        Tally {
            direct,
            zero,
            near,
            converged,
            curvature,
            limit,
            refused,
        }
    }
}

impl From<Tally> for [u32; 7] {
    ghost from_gives = { λ t counts. counts ≡ counts_of t };

    fn from(t: Tally) -> [u32; 7] {
        [
            t.direct,
            t.zero,
            t.near,
            t.converged,
            t.curvature,
            t.limit,
            t.refused,
        ]
    }
}

pub fn fresh() -> Tally
    ensures { result ≡ runs.fresh }
{
    Tally::default()
}

// The sum of any seven counts fits 64 bits.
pub fn total(t: Tally) -> u64
    ensures { result ≡ total_of t }
{
    u64::from(t.direct)
        + u64::from(t.zero)
        + u64::from(t.near)
        + u64::from(t.converged)
        + u64::from(t.curvature)
        + u64::from(t.limit)
        + u64::from(t.refused)
}

// One more of the kind, until the sum has reached the cap; then the record stays.
pub fn added(t: Tally, k: Kind) -> Tally
    ensures { result ≡ added_of t k }
{
    if total(t) < law::TALLY {
        inner::one_more(t, k)
    } else {
        t
    }
}

// `asked` is how the step solve ended that a call asked for: a response with no entries left asks for none.
// A match: `map_or` was tried, and its clause leaves the two cases to a proof.
pub fn counted(t: Tally, asked: Option<Kind>) -> Tally
    ensures { result ≡ counted_of t asked }
{
    match asked {
        None => t,
        Some(kind) => added(t, kind),
    }
}

// The lent record, updated in place.
pub fn count(t: &mut Tally, asked: Option<Kind>)
    ensures { t.new ≡ counted_of t.old asked }
{
    *t = counted(*t, asked);
}
