// The work of computing the columns, once its tests have passed.
// The work lists stay parameters: in a struct each clause would have to say that every field keeps its reference.
ghost use Rattle.std.specs.Prelude.{◌≡◌, Ok};
ghost use Rattle.step_routes.specs.System.{system_of};
ghost use Rattle.columns_table.specs.Lent.{numbers_of};
ghost use Rattle.columns_make.specs.Making.{given, left, work, Ready};

use crate::Ended;
use columns_axes::{Tallies, axis};
use columns_table::table::Table;
use step_routes::system::System;
use step_tally::Tally;

pub fn compute(
    system: &System,
    table: &Table,
    columns: &mut [f32],
    rhs: &mut [f32],
    scratch: &mut [f32],
    residual: &mut [f32],
    direction: &mut [f32],
    a_direction: &mut [f32],
    z: &mut [f32],
    tally: &mut Tally,
) -> Ended
    requires { Ready (given (system_of system.now) (numbers_of table.now) columns.old rhs.old scratch.old residual.old
        direction.old a_direction.old z.old tally.old) }
    ensures { left (Ok result) columns.new rhs.new scratch.new residual.new direction.new a_direction.new z.new tally.new
        ≡ work (given (system_of system.now) (numbers_of table.now) columns.old rhs.old scratch.old residual.old
        direction.old a_direction.old z.old tally.old) }
{
    let n = system.pattern.n;
    vectors::inner::clear(n, rhs);
    step_routes::front::sweep(system.dense(), n, scratch);
    step_routes::front::clear4(n, residual, direction, a_direction, z);
    let tallies = Tallies {
        lent: *tally,
        own: step_tally::fresh(),
    };
    let done = axis::all(
        system,
        table,
        columns,
        rhs,
        scratch,
        residual,
        direction,
        a_direction,
        z,
        tallies,
    );
    *tally = done.lent;
    Ended::from(done.own)
}
