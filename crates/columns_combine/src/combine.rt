// A response combined from the columns: entry after entry, axis after axis, each column times its weight.
ghost use Rattle.std.specs.Prelude.{◌≡◌, ◌*◌, ◌≤◌, ◌<◌, length, Ok};
ghost use Rattle.step_entries.specs.Lent.{entered_of, IsEntered};
ghost use Rattle.columns_table.specs.Lent.{numbers_of};
ghost use Rattle.columns_combine.specs.Summed.{sum_of, is_missing, axis_added, entry_added, summed};
ghost use Rattle.columns_combine.specs.Readable.{Readable};
ghost use Rattle.columns_combine.specs.Combining.{given, left, Ready, work};

use crate::Combined;
use crate::column::column;
use columns_table::table::Table;
use step_entries::entries::{Entries, gain_of};

// A particle has no column.
#[derive(Clone, Copy, Debug)]
pub struct NoColumn;

// Axis k of particle p's column times the weight, onto out. No column is looked for where the weight equals zero.
#[tactic(auto, unfolding(crate::specs::Summed::axis_added))]
fn add_axis(
    n: usize,
    table: &Table,
    columns: &[f32],
    p: usize,
    k: usize,
    weight: f32,
    out: &mut [f32],
) -> Result<(), NoColumn>
    requires readable { Readable n table.now.column_of.now columns.now }
    requires p_lt_n { (p < n) × (k < 2) × (2 * n ≤ length out.old) }
    ensures { sum_of out.new (is_missing result) ≡ axis_added n table.now.column_of.now columns.now p k weight out.old }
{
    if weight == 0.0 {
        return Ok(());
    }
    let Some(c) = table.column(p) else {
        return Err(NoColumn);
    };
    vectors::multiples::advance(n, weight, column(n, c, columns, k), out);
    Ok(())
}

// One entry's columns.
#[tactic(auto, unfolding(crate::specs::Summed::entry_added, step_entries::specs::Entries::free))]
fn add_entry(
    n: usize,
    table: &Table,
    columns: &[f32],
    entries: &Entries,
    e: usize,
    out: &mut [f32],
) -> Result<(), NoColumn>
    requires readable { Readable n table.now.column_of.now columns.now }
    requires entries { IsEntered n table.now.pinned.now (entered_of entries.now) }
    requires e_lt_count { (e < entries.now.count) × (2 * n ≤ length out.old) }
    ensures { sum_of out.new (is_missing result) ≡ entry_added n table.now.pinned.now table.now.column_of.now columns.now
        entries.now.particles.now entries.now.gradients.now e out.old }
{
    let p = law::wide(entries.particles[e]);
    if table.pinned[p] != 0 {
        return Ok(());
    }
    let j = 2 * e;
    add_axis(n, table, columns, p, 0, entries.gradients[j], out)?;
    add_axis(n, table, columns, p, 1, entries.gradients[j + 1], out)
}

// All entries' columns, until one is missing. e is handed on.
#[tactic(auto, unfolding(crate::specs::Summed::summed), using(law::proofs::Loop::over_none, law::proofs::Loop::over_more))]
fn add_all(
    n: usize,
    table: &Table,
    columns: &[f32],
    entries: &Entries,
    out: &mut [f32],
) -> Result<(), NoColumn>
    requires readable { Readable n table.now.column_of.now columns.now }
    requires entries { IsEntered n table.now.pinned.now (entered_of entries.now) }
    requires n_in_bounds { 2 * n ≤ length out.old }
    ensures { sum_of out.new (is_missing result) ≡ summed n table.now.pinned.now table.now.column_of.now columns.now
        entries.now.particles.now entries.now.gradients.now entries.now.count out.old }
{
    for e in 0..entries.count {
        add_entry(n, table, columns, entries, e, out)?;
    }
    Ok(())
}

#[tactic(auto, unfolding(crate::specs::Combining::work, crate::specs::Combining::sum_for))]
pub fn combine(
    n: usize,
    table: &Table,
    columns: &[f32],
    entries: &Entries,
    out: &mut [f32],
) -> Combined
    requires { Ready (given n (numbers_of table.now) columns.now (entered_of entries.now) out.old) }
    ensures { left (Ok result) out.new ≡ work (given n (numbers_of table.now) columns.now (entered_of entries.now) out.old) }
{
    vectors::inner::clear(n, out);
    if add_all(n, table, columns, entries, out).is_err() {
        return Combined::NotLoaded;
    }
    if !entries.any_free(n, table.pinned) {
        return Combined::Nothing;
    }
    let raw = entries.raw_gain(n, table.pinned, out);
    Combined::Gain(gain_of(raw))
}
