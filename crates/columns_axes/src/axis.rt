// One column: a response with one entry, particle p along axis k, into the column's part of the buffer; and all of them, particle by particle.
// The lists lent by &mut stay parameters: in a struct each clause would have to say that every field keeps its reference. p and k are handed on.
ghost use Rattle.std.specs.Prelude.{◌≡◌, cond, ◌<◌, eqb, Ok};
ghost use Rattle.plane.specs.Plane.{zero32, one32};
ghost use Rattle.law.specs.Loop.{over};
ghost use Rattle.matrix_shape.specs.Rows.{at};
ghost use Rattle.step_tally.specs.Count.{counted_of};
ghost use Rattle.step_routes.specs.System.{system_of};
ghost use Rattle.step_counts.specs.Counting.{asked_by};
ghost use Rattle.columns_table.specs.Lent.{numbers_of};
ghost use Rattle.columns_axes.specs.Axes.{given, held, axis_made, particle_made, Ready};

use crate::Tallies;
use columns_table::table::Table;
use step_entries::entries::Entries;
use step_response::Responded;
use step_routes::system::System;

// The part along axis j of the unit vector along axis k.
fn unit(k: usize, j: usize) -> f32
    ensures { result ≡ cond (eqb k j) one32 zero32 }
{
    if k == j { 1.0 } else { 0.0 }
}

// Both records after a solve.
fn counts(tallies: Tallies, how: Responded) -> Tallies
    ensures { (result.lent ≡ counted_of tallies.lent (asked_by (Ok how))) × (result.own ≡ counted_of tallies.own (asked_by (Ok how))) }
{
    let asked = step_counts::asked::by_response(Ok(how));
    Tallies {
        lent: step_tally::counted(tallies.lent, asked),
        own: step_tally::counted(tallies.own, asked),
    }
}

// c is the number of particle p's column.
fn axis(
    system: &System,
    table: &Table,
    p: usize,
    c: usize,
    k: usize,
    columns: &mut [f32],
    rhs: &mut [f32],
    scratch: &mut [f32],
    residual: &mut [f32],
    direction: &mut [f32],
    a_direction: &mut [f32],
    z: &mut [f32],
    tallies: Tallies,
) -> Tallies
    requires ready { Ready (given (system_of system.now) (numbers_of table.now) columns.old rhs.old scratch.old residual.old
        direction.old a_direction.old z.old tallies.lent) }
    requires p_lt_n { (p < system.now.pattern.n) × (c ≡ at table.now.column_of.now p) × (c < table.now.loaded) × (k < 2) }
    ensures { held columns.new rhs.new scratch.new residual.new direction.new a_direction.new z.new result.lent result.own
        ≡ axis_made (given (system_of system.now) (numbers_of table.now) columns.old rhs.old scratch.old residual.old
        direction.old a_direction.old z.old tallies.lent) p k (held columns.old rhs.old scratch.old residual.old
        direction.old a_direction.old z.old tallies.lent tallies.own) }
{
    let n = system.pattern.n;
    let start = 2 * ((2 * c + k) * n);
    let end = start + 2 * n;
    let particles = [p as u32];
    let gradients = [unit(k, 0), unit(k, 1)];
    let entries = Entries {
        count: 1,
        particles: &particles,
        gradients: &gradients,
    };
    let how = step_response::front::respond(
        system,
        table.pinned,
        &entries,
        &mut columns[start..end],
        rhs,
        scratch,
        residual,
        direction,
        a_direction,
        z,
    );
    counts(tallies, how)
}

// A particle's two columns; none where it isn't loaded.
fn particle(
    system: &System,
    table: &Table,
    p: usize,
    columns: &mut [f32],
    rhs: &mut [f32],
    scratch: &mut [f32],
    residual: &mut [f32],
    direction: &mut [f32],
    a_direction: &mut [f32],
    z: &mut [f32],
    tallies: Tallies,
) -> Tallies
    requires ready { Ready (given (system_of system.now) (numbers_of table.now) columns.old rhs.old scratch.old residual.old
        direction.old a_direction.old z.old tallies.lent) }
    requires p_lt_n { p < system.now.pattern.n }
    ensures { held columns.new rhs.new scratch.new residual.new direction.new a_direction.new z.new result.lent result.own
        ≡ particle_made (given (system_of system.now) (numbers_of table.now) columns.old rhs.old scratch.old residual.old
        direction.old a_direction.old z.old tallies.lent) p (held columns.old rhs.old scratch.old residual.old
        direction.old a_direction.old z.old tallies.lent tallies.own) }
{
    let Some(c) = table.column(p) else {
        return tallies;
    };
    let mut both = tallies;
    for k in 0..2 {
        both = axis(
            system,
            table,
            p,
            c,
            k,
            columns,
            rhs,
            scratch,
            residual,
            direction,
            a_direction,
            z,
            both,
        );
    }
    both
}

// The particles in rising order.
pub fn all(
    system: &System,
    table: &Table,
    columns: &mut [f32],
    rhs: &mut [f32],
    scratch: &mut [f32],
    residual: &mut [f32],
    direction: &mut [f32],
    a_direction: &mut [f32],
    z: &mut [f32],
    tallies: Tallies,
) -> Tallies
    requires { Ready (given (system_of system.now) (numbers_of table.now) columns.old rhs.old scratch.old residual.old
        direction.old a_direction.old z.old tallies.lent) }
    ensures { held columns.new rhs.new scratch.new residual.new direction.new a_direction.new z.new result.lent result.own
        ≡ over (particle_made (given (system_of system.now) (numbers_of table.now) columns.old rhs.old scratch.old residual.old
        direction.old a_direction.old z.old tallies.lent)) 0 system.now.pattern.n (held columns.old rhs.old scratch.old residual.old
        direction.old a_direction.old z.old tallies.lent tallies.own) }
{
    let mut both = tallies;
    for p in 0..system.pattern.n {
        both = particle(
            system,
            table,
            p,
            columns,
            rhs,
            scratch,
            residual,
            direction,
            a_direction,
            z,
            both,
        );
    }
    both
}
