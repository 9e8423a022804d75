// The table of columns. Accepted, the lent place has how many particles are loaded then; a refusal leaves it.
ghost use Rattle.columns_table.specs.Clearing as clearing;
ghost use Rattle.columns_table.specs.Loading as loading;
ghost use Rattle.abi_answers.specs.Numbers.{answered, Told};
ghost use Rattle.abi_columns_answers.specs.Loads as loads;

use abi_answers::number;
use abi_columns_answers::loaded;

#[unsafe(no_mangle)]
pub extern "C" fn bracket_clear_columns(
    n: usize,
    column_of: &mut [u32],
    loaded_after: &mut usize,
) -> u8
    ensures { Told clearing.door (λ o. o.answer) answered loads.loaded_after
        (clearing.given n column_of.old)
        result
        (λ a. clearing.left a column_of.new)
        loaded_after.old loaded_after.new }
{
    let answer = columns_doors::clear_columns(n, column_of);
    *loaded_after = loaded::after(*loaded_after, answer);
    number(&answer)
}

#[unsafe(no_mangle)]
pub extern "C" fn bracket_load_particle(
    n: usize,
    pinned: &[u8],
    loaded: usize,
    particle: usize,
    column_of: &mut [u32],
    loaded_after: &mut usize,
) -> u8
    ensures { Told loading.door (λ o. o.answer) answered loads.loaded_after
        (loading.given n pinned.now loaded particle column_of.old)
        result
        (λ a. loading.left a column_of.new)
        loaded_after.old loaded_after.new }
{
    let answer = columns_doors::load_particle(n, pinned, loaded, particle, column_of);
    *loaded_after = loaded::after(*loaded_after, answer);
    number(&answer)
}
