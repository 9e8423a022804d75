// The tally as a line's list of seven counts.
ghost use Rattle.std.specs.Prelude.{◌≤◌};
ghost use Rattle.replay_tokens.specs.Room.{room};

use replay_tokens::list::wholes;
use replay_tokens::print::{Room, whole_list};
use step_tally::Tally;

const COUNTS: usize = 7;

// The record that is the list with `lists` lists before it, behind `at` plain numbers; a fresh one where that isn't seven counts.
pub fn read(w: &[u32], at: usize, lists: usize) -> Tally {
    let c = wholes(w, at, lists);
    if c.len() < COUNTS {
        return Tally::default();
    }
    Tally::from([c[0], c[1], c[2], c[3], c[4], c[5], c[6]])
}

pub fn show(t: Tally, out: &mut Room, at: usize) -> usize
    requires { at ≤ room }
    ensures { result ≤ room }
{
    let list: [u32; COUNTS] = t.into();
    whole_list(&list, out, at)
}
