// The preconditioner, over lent slices of four floats to a block. What these require, the doors have tested.
ghost use Rattle.std.specs.Prelude.{◌≡◌, ◌*◌, ◌≤◌, length};
ghost use Rattle.law.specs.Mix.{mix};
ghost use Rattle.gradient_definition.specs.Inverse.{inverse_or, inverse_at, Slots};

use matrix_shape::pattern::Pattern;
use plane::Block;

#[tactic(auto, unfolding(gradient_definition::specs::Inverse::or_identity))]
fn inverse_or_identity(m: Block) -> Block
    ensures { result ≡ inverse_or m }
{
    let inv = plane::inverse(m);
    if plane::is_finite(inv) {
        inv
    } else {
        [[1.0, 0.0], [0.0, 1.0]]
    }
}

// Each diagonal block's inverse, or the identity.
pub fn update_preconditioner(pattern: &Pattern, blocks: &[f32], preconditioner: &mut [f32])
    requires slots { Slots pattern.now.n pattern.now.diagonal.now blocks.now }
    requires n_in_bounds { 4 * pattern.now.n ≤ length preconditioner.old }
    ensures { preconditioner.new ≡ mix 4 pattern.now.n (inverse_at pattern.now.diagonal.now blocks.now) preconditioner.old }
{
    for (r, slot) in pattern.diagonal[..pattern.n].iter().enumerate() {
        vectors::inner::set_block(
            preconditioner,
            r,
            inverse_or_identity(vectors::inner::block_at(blocks, law::wide(*slot))),
        );
    }
}
