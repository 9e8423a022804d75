// A particle's own block: both its columns copied, and the block of their values at the particle, symmetrised.
ghost use Rattle.std.specs.Prelude.{◌≡◌, ◌*◌, ◌≤◌, ◌<◌, length, Ok};
ghost use Rattle.columns_table.specs.Lent.{numbers_of};
ghost use Rattle.columns_combine.specs.Readable.{Stored};
ghost use Rattle.columns_block.specs.Blocking.{symmetrised, block_for, copied, given, left, Ready, work};

use columns_combine::column::column;
use columns_table::table::Table;
use plane::Block;

// (M + Mᵀ)·0.5, entry by entry.
#[tactic(auto, unfolding(crate::specs::Blocking::symmetrised))]
fn symmetrise(m: Block) -> Block
    ensures { result ≡ symmetrised m }
{
    [
        plane::scale(plane::add(m[0], [m[0][0], m[1][0]]), 0.5),
        plane::scale(plane::add(m[1], [m[0][1], m[1][1]]), 0.5),
    ]
}

// The block of both columns' values at particle p.
fn own_block(n: usize, c: usize, columns: &[f32], p: usize) -> Block
    requires stored { Stored n c columns.now }
    requires p_lt_n { p < n }
    ensures { result ≡ block_for n columns.now c p }
{
    let u = vectors::inner::vector_at(column(n, c, columns, 0), p);
    let v = vectors::inner::vector_at(column(n, c, columns, 1), p);
    symmetrise([u, v])
}

// Both columns over the front of out, axis 0 first.
fn copy_both(n: usize, c: usize, columns: &[f32], out: &mut [f32])
    requires stored { Stored n c columns.now }
    requires n_in_bounds { 4 * n ≤ length out.old }
    ensures { out.new ≡ copied n columns.now c out.old }
{
    let m = 2 * n;
    vectors::inner::copy(n, column(n, c, columns, 0), out);
    vectors::inner::copy(n, column(n, c, columns, 1), &mut out[m..]);
}

// Zeros for a pinned particle; none for one that isn't loaded.
#[tactic(auto, unfolding(crate::specs::Blocking::work), using(columns_combine::specs::Readable::stored_of))]
pub fn block(
    n: usize,
    table: &Table,
    columns: &[f32],
    particle: usize,
    out: &mut [f32],
) -> Option<Block>
    requires { Ready (given n (numbers_of table.now) columns.now particle out.old) }
    ensures { left (Ok result) out.new ≡ work (given n (numbers_of table.now) columns.now particle out.old) }
{
    if table.pinned[particle] != 0 {
        vectors::inner::clear(2 * n, out);
        return Some([[0.0, 0.0], [0.0, 0.0]]);
    }
    let c = table.column(particle)?;
    copy_both(n, c, columns, out);
    Some(own_block(n, c, columns, particle))
}
