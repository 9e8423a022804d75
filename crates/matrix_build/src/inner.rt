// The builder on buffers that are just as long as what they come to hold.
ghost use Rattle.std.specs.Prelude.{◌≡◌};
ghost use Rattle.matrix_build.specs.Build.{Ready, made, built_of};

use matrix_pairs::pairs::Pairs;

pub fn build(
    n: usize,
    count: usize,
    pairs: &[u32],
    row_offsets: &mut [u32],
    cols: &mut [u32],
    diagonal: &mut [u32],
    work: &mut [u32],
) -> usize
    requires { Ready n count pairs.now row_offsets.old cols.old diagonal.old work.old }
    ensures { made result row_offsets.new cols.new diagonal.new work.new ≡ built_of n count
        pairs.now }
{
    let pairs = Pairs {
        n,
        count,
        list: pairs,
    };
    matrix_lists::rows::list_rows(&pairs, row_offsets, cols, diagonal, work);
    law::lists::clear(cols);
    let k = crate::filling::fill_rows(&pairs, work, row_offsets, cols, diagonal);
    law::lists::clear(work);
    k
}
