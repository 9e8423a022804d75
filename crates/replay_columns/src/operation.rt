// The operations by name. Each takes the numbers of its line and writes its answer to the buffer; the answer is None where no operation has
// the name, or the numbers are not as it takes them.
ghost use Rattle.std.specs.Prelude.{◌≤◌, IfSome};
ghost use Rattle.replay_tokens.specs.Room.{room};

use crate::{combine, compute, table};
use replay_tokens::print::Room;

pub fn operate(name: &[u8], w: &[u32], out: &mut Room) -> Option<usize>
    ensures { IfSome result (λ at. at ≤ room) }
{
    match name {
        b"clear_columns" => table::clear_columns(w, out),
        b"load_particle" => table::load_particle(w, out),
        b"compute_columns" => compute::compute_columns(w, out),
        b"response_from_columns" => combine::response_from_columns(w, out),
        b"particle_block_from_columns" => combine::particle_block_from_columns(w, out),
        _ => None,
    }
}
