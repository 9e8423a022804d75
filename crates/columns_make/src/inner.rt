// Computing the columns with all its tests: refused, or done.
// The work lists stay parameters: in a struct each clause would have to say that every field keeps its reference.
ghost use Rattle.law.specs.Promise.{Promise};
ghost use Rattle.step_routes.specs.System.{system_of};
ghost use Rattle.columns_table.specs.Lent.{numbers_of};
ghost use Rattle.columns_make.specs.Making.{given, left, door};

use crate::{Ended, front};
use columns_refusals::refuse;
use columns_table::table::Table;
use law::refusal::Refusal;
use step_routes::system::System;
use step_tally::{Kind, Tally};

pub fn compute_columns(
    system: &System,
    table: &Table,
    columns: &mut [f32],
    rhs: &mut [f32],
    scratch: &mut [f32],
    residual: &mut [f32],
    direction: &mut [f32],
    a_direction: &mut [f32],
    z: &mut [f32],
    tally: &mut Tally,
) -> Result<Ended, Refusal>
    ensures { Promise door
        (given (system_of system.now) (numbers_of table.now) columns.old rhs.old scratch.old residual.old
        direction.old a_direction.old z.old tally.old)
        (left result columns.new rhs.new scratch.new residual.new direction.new a_direction.new z.new
        tally.new) }
{
    if let Err(refusal) = refuse::computing(
        system,
        table,
        columns,
        rhs,
        scratch,
        residual,
        direction,
        a_direction,
        z,
    ) {
        step_tally::count(tally, Some(Kind::Refused));
        return Err(refusal);
    }
    Ok(front::compute(
        system,
        table,
        columns,
        rhs,
        scratch,
        residual,
        direction,
        a_direction,
        z,
        tally,
    ))
}
