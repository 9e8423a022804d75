// The operations by name. Each takes the numbers of its line and writes its answer to the buffer; the answer is None where no operation has
// the name, or the numbers are not as it takes them.
ghost use Rattle.std.specs.Prelude.{◌≤◌, IfSome};
ghost use Rattle.replay_tokens.specs.Room.{room};

use crate::{blocks, build};
use replay_tokens::print::Room;

pub fn operate(name: &[u8], w: &[u32], out: &mut Room) -> Option<usize>
    ensures { IfSome result (λ at. at ≤ room) }
{
    match name {
        b"from_pairs" => build::from_pairs(w, out),
        b"pattern_from_pairs" => build::pattern_from_pairs(w, out),
        b"block_index" => blocks::block_index(w, out),
        b"diagonal_index" => blocks::diagonal_index(w, out),
        b"clear_values" => blocks::clear_values(w, out),
        b"mul" => blocks::mul(w, out),
        b"make_dirichlet" => blocks::make_dirichlet(w, out),
        b"make_dirichlet_marked" => blocks::make_dirichlet_marked(w, out),
        _ => None,
    }
}
