// One axis of a loaded particle's column, as a part of the caller's list.
ghost use Rattle.std.specs.Prelude.{◌≡◌, ◌*◌, ◌<◌, length};
ghost use Rattle.columns_table.specs.Columns.{column_of};
ghost use Rattle.columns_combine.specs.Readable.{Stored};

pub fn column<'a>(n: usize, c: usize, columns: &'a [f32], k: usize) -> &'a [f32]
    requires stored { Stored n c columns.now }
    requires k_lt_2 { k < 2 }
    ensures same { result.now ≡ column_of n columns.now c k }
    ensures long { length result.now ≡ 2 * n }
{
    let start = 2 * ((2 * c + k) * n);
    let end = start + 2 * n;
    &columns[start..end]
}
