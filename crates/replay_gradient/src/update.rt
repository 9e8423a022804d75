// An update of the preconditioner. Values stand in buffers.
ghost use Rattle.std.specs.Prelude.{◌≤◌, IfSome};
ghost use Rattle.replay_tokens.specs.Room.{room};

use replay_tokens::lent::pattern;
use replay_tokens::list::{LONGEST, filled, lent_reals};
use replay_tokens::print::{Room, float_list};
use replay_tokens::verdict::first_words;

fn call(w: &[u32], blocks: &[f32], preconditioner: &mut [f32], out: &mut Room) -> usize
    ensures { result ≤ room }
{
    let answer = gradient_doors::update_preconditioner(&pattern(w, 1), blocks, preconditioner);
    let at = first_words(&answer, out);
    float_list(preconditioner, out, at)
}

pub fn update_preconditioner(w: &[u32], out: &mut Room) -> Option<usize>
    ensures { IfSome result (λ at. at ≤ room) }
{
    if !filled(w, 1, 5) {
        return None;
    }
    let mut blocks = [0f32; LONGEST];
    let mut preconditioner = [0f32; LONGEST];
    let i = lent_reals(w, 1, 3, &mut blocks);
    let j = lent_reals(w, 1, 4, &mut preconditioner);
    Some(call(w, i, j, out))
}
