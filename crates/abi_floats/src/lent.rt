// Into the front of a lent slice, whose rest stays; refused where the slice is shorter.
ghost use Rattle.law.specs.Promise.{Promise};
ghost use Rattle.plane.specs.Plane.{pair, x, y};
ghost use Rattle.plane.specs.Lent.{flat};
ghost use Rattle.abi_floats.specs.Handed.{handed, left};

use law::refusal::{Refusal, ensure};
use plane::{Block, Vector};

#[tactic(auto, unfolding(law::specs::Refusal::verdict, law::specs::Promise::outcome, crate::specs::Handed::handed))]
pub fn numbers(given: &[f32], out: &mut [f32]) -> Result<(), Refusal>
    ensures { Promise (handed given.now) out.old (left result out.new) }
{
    ensure(given.len() <= out.len(), Refusal::ShortBuffer)?;
    out[..given.len()].copy_from_slice(given);
    Ok(())
}

// A vector's two numbers.
pub fn vector(v: Vector, out: &mut [f32]) -> Result<(), Refusal>
    ensures { Promise (handed (pair (x v) (y v))) out.old (left result out.new) }
{
    numbers(&[v[0], v[1]], out)
}

// A block's four numbers, column 0 first.
pub fn block(m: Block, out: &mut [f32]) -> Result<(), Refusal>
    ensures { Promise (handed (flat m)) out.old (left result out.new) }
{
    numbers(&[m[0][0], m[0][1], m[1][0], m[1][1]], out)
}
