// Lent lists, written whole.
ghost use Rattle.std.specs.Prelude.{◌≡◌, length, replicate};

// Every place is 0.
pub fn clear(list: &mut [u32])
    ensures { list.new ≡ replicate (length list.old) 0 }
{
    list.fill(0);
}
