// The pattern and the plan that stand in a line, behind so many plain numbers.
ghost use Rattle.std.specs.Prelude.{◌<◌, ◌^◌};

use crate::list::{plain, wholes};
use law::wide;
use matrix_shape::pattern::Pattern;
use plan_fits::plan::Plan;

// The number of rows is the line's first; the lists are its first three.
pub fn pattern(w: &[u32], at: usize) -> Pattern<'_> {
    Pattern {
        n: wide(plain(w, 0)),
        row_offsets: wholes(w, at, 0),
        cols: wholes(w, at, 1),
        diagonal: wholes(w, at, 2),
    }
}

// Four lists, behind so many others.
pub fn plan(w: &[u32], at: usize, lists: usize) -> Plan<'_>
    requires { lists < 2 ^ 32 }
{
    Plan {
        perm: wholes(w, at, lists),
        inv_perm: wholes(w, at, lists + 1),
        first: wholes(w, at, lists + 2),
        row_start: wholes(w, at, lists + 3),
    }
}
