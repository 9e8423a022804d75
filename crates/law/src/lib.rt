// The laws that every crate cites are in specs/. The code has only the limits (RULES.md § 2), the refusals (§ 3), a widening cast and a list zeroed.
#![tactic(auto)]

ghost use Rattle.law.specs.Wide.{Widened};

pub mod lists;
pub mod refusal;

// What a bracket model may hold.
pub const PARTICLES: usize = 1024;

pub const PAIRS: usize = 4096;

pub const ENVELOPE: usize = 16384;

pub const ENTRIES: usize = 16;

pub const ITERATIONS: usize = 4096;

// The particles whose columns are kept.
pub const COLUMNS: usize = 16;

// From this sum of its counts on a tally stays.
pub const TALLY: u64 = 4000000000;

// The bench program's text.
pub const BYTES: usize = 65536;

// The answer for a block that is not stored.
pub const ABSENT: u32 = 4294967295;

// What a table of columns has for a particle that isn't loaded.
pub const UNLOADED: u32 = 4294967295;

// A column, a row start or a place of a list as an index.
pub fn wide(x: u32) -> usize
    ensures { Widened x result }
{
    x as usize
}
