// The operations by name. Each takes the numbers of its line and writes its answer to the buffer; the answer is None where no operation has
// the name, or the numbers are not as it takes them.
ghost use Rattle.std.specs.Prelude.{◌≤◌, IfSome};
ghost use Rattle.replay_tokens.specs.Room.{room};

use crate::{factor, mark, solve};
use replay_tokens::print::Room;

pub fn operate(name: &[u8], w: &[u32], out: &mut Room) -> Option<usize>
    ensures { IfSome result (λ at. at ≤ room) }
{
    match name {
        b"factorize" => factor::factorize(w, out),
        b"factorize_step_matrix" => mark::factorize_step_matrix(w, out),
        b"solve" => solve::solve(w, out),
        _ => None,
    }
}
