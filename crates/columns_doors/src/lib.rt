// The columns of loaded particles (rules, module 6), soft_fem_system_response.rs's clear_columns, load_particle, compute_columns, response_from_columns
// and particle_block_from_columns: THE DOORS. Each tests all that it is handed, refuses or does the work.
#![tactic(auto)]

ghost use Rattle.law.specs.Promise.{Promise};
ghost use Rattle.step_routes.specs.System.{system_of};
ghost use Rattle.step_entries.specs.Lent.{entered_of};
ghost use Rattle.columns_table.specs.Lent.{numbers_of};
ghost use Rattle.columns_table.specs.Clearing as clearing;
ghost use Rattle.columns_table.specs.Loading as loading;
ghost use Rattle.columns_make.specs.Making as making;
ghost use Rattle.columns_combine.specs.Combining as combining;
ghost use Rattle.columns_block.specs.Blocking as blocking;

use columns_combine::Combined;
use columns_make::Ended;
use columns_table::table::Table;
use law::refusal::Refusal;
use plane::Block;
use step_entries::entries::Entries;
use step_routes::system::System;
use step_tally::Tally;

// No particle is loaded. It answers how many are: none.
#[tactic(auto, unfolding(law::specs::Promise::outcome, law::specs::Refusal::verdict, columns_table::specs::Clearing::refusals))]
pub fn clear_columns(n: usize, column_of: &mut [u32]) -> Result<usize, Refusal>
    ensures { Promise clearing.door (clearing.given n column_of.old) (clearing.left result column_of.new) }
{
    columns_table::refuse::clearing(n, column_of)?;
    columns_table::table::clear(n, column_of);
    Ok(0)
}

// One particle more, unless it is pinned or loaded. It answers how many are loaded then.
#[tactic(auto, unfolding(law::specs::Promise::outcome))]
pub fn load_particle(
    n: usize,
    pinned: &[u8],
    loaded: usize,
    particle: usize,
    column_of: &mut [u32],
) -> Result<usize, Refusal>
    ensures { Promise loading.door (loading.given n pinned.now loaded particle column_of.old)
        (loading.left result column_of.new) }
{
    let table = Table {
        pinned,
        loaded,
        column_of,
    };
    columns_table::refuse::loading(n, &table, particle)?;
    Ok(columns_table::table::load(n, pinned, loaded, particle, column_of))
}

// The columns of the loaded particles: particle after particle, axis after axis, a step solve for the unit vector there.
pub fn compute_columns(
    system: &System,
    table: &Table,
    columns: &mut [f32],
    rhs: &mut [f32],
    scratch: &mut [f32],
    residual: &mut [f32],
    direction: &mut [f32],
    a_direction: &mut [f32],
    z: &mut [f32],
    tally: &mut Tally,
) -> Result<Ended, Refusal>
    ensures { Promise making.door
        (making.given (system_of system.now) (numbers_of table.now) columns.old rhs.old scratch.old
        residual.old direction.old a_direction.old z.old tally.old)
        (making.left result columns.new rhs.new scratch.new residual.new direction.new
        a_direction.new z.new tally.new) }
{
    columns_make::inner::compute_columns(
        system,
        table,
        columns,
        rhs,
        scratch,
        residual,
        direction,
        a_direction,
        z,
        tally,
    )
}

// The response to a constraint over loaded particles, from their columns as they stand.
#[tactic(auto, unfolding(law::specs::Promise::outcome))]
pub fn response_from_columns(
    n: usize,
    table: &Table,
    columns: &[f32],
    entries: &Entries,
    out: &mut [f32],
) -> Result<Combined, Refusal>
    ensures { Promise combining.door
        (combining.given n (numbers_of table.now) columns.now (entered_of entries.now) out.old)
        (combining.left result out.new) }
{
    columns_combine::refuse::combining(n, table, columns, entries, out)?;
    Ok(columns_combine::combine::combine(n, table, columns, entries, out))
}

// A particle's two columns, and the block of their values at the particle, symmetrised; none where it isn't loaded.
#[tactic(auto, unfolding(law::specs::Promise::outcome))]
pub fn particle_block_from_columns(
    n: usize,
    table: &Table,
    columns: &[f32],
    particle: usize,
    out: &mut [f32],
) -> Result<Option<Block>, Refusal>
    ensures { Promise blocking.door
        (blocking.given n (numbers_of table.now) columns.now particle out.old)
        (blocking.left result out.new) }
{
    columns_block::refuse::blocking(n, table, columns, particle, out)?;
    Ok(columns_block::block::block(n, table, columns, particle, out))
}
