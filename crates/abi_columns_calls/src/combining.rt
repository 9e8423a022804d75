// What is read off the columns as they stand. Accepted, how is 0, 6 where no entry is left, 7 where a particle isn't loaded, and gain or block are
// zero with the latter two; a refusal leaves the places.
ghost use Rattle.step_entries.specs.Lent.{entered};
ghost use Rattle.columns_table.specs.Lent.{numbering};
ghost use Rattle.columns_combine.specs.Combining as combining;
ghost use Rattle.columns_block.specs.Blocking as blocking;
ghost use Rattle.abi_answers.specs.Numbers.{answered, Told};
ghost use Rattle.abi_columns_answers.specs.Combines.{gained, gained_of};
ghost use Rattle.abi_columns_answers.specs.Blocks.{shown, shown_of};

use abi_answers::number;
use abi_columns_answers::block::Shown;
use abi_columns_answers::combined::Gained;
use columns_table::table::Table;
use step_entries::entries::Entries;

#[unsafe(no_mangle)]
pub extern "C" fn bracket_response_from_columns(
    n: usize,
    pinned: &[u8],
    loaded: usize,
    column_of: &[u32],
    columns: &[f32],
    entries: usize,
    particles: &[u32],
    gradients: &[f32],
    out: &mut [f32],
    gain: &mut f32,
    how: &mut u32,
) -> u8
    ensures { Told combining.door (λ o. o.answer) answered gained_of
        (combining.given n (numbering pinned.now loaded column_of.now) columns.now
        (entered entries particles.now gradients.now) out.old)
        result
        (λ a. combining.left a out.new)
        (gained gain.old how.old)
        (gained gain.new how.new) }
{
    let table = Table {
        pinned,
        loaded,
        column_of,
    };
    let entries = Entries {
        count: entries,
        particles,
        gradients,
    };
    let answer = columns_doors::response_from_columns(n, &table, columns, &entries, out);
    let before = Gained {
        gain: *gain,
        how: *how,
    };
    let after = before.after(answer);
    *gain = after.gain;
    *how = after.how;
    number(&answer)
}

#[unsafe(no_mangle)]
pub extern "C" fn bracket_particle_block_from_columns(
    n: usize,
    pinned: &[u8],
    loaded: usize,
    column_of: &[u32],
    columns: &[f32],
    particle: usize,
    out: &mut [f32],
    how: &mut u32,
    block: &mut [f32; 4],
) -> u8
    ensures { Told blocking.door (λ o. o.answer) answered shown_of
        (blocking.given n (numbering pinned.now loaded column_of.now) columns.now particle out.old)
        result
        (λ a. blocking.left a out.new)
        (shown how.old block.old)
        (shown how.new block.new) }
{
    let table = Table {
        pinned,
        loaded,
        column_of,
    };
    let answer = columns_doors::particle_block_from_columns(n, &table, columns, particle, out);
    let held = *block;
    let before = Shown {
        how: *how,
        block: held,
    };
    let after = before.after(answer);
    let shown = after.block;
    *how = after.how;
    *block = shown;
    number(&answer)
}
