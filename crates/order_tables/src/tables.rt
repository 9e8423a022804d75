// Whole lists written in one pass. Where a loop goes by numbers, a place's number is what is stored, or is read beside the next one.
ghost use Rattle.std.specs.Prelude.{◌≡◌, reverse, suc, ◌≤◌, length};
ghost use Rattle.law.specs.Limit.{particles};
ghost use Rattle.order_definition.specs.Order.{numbers};
ghost use Rattle.order_definition.specs.Keys.{Below, Rising};
ghost use Rattle.order_definition.specs.Marks.{mark_all};
ghost use Rattle.order_definition.specs.Searches.{degrees_to};

// 0, 1, 2 and so on.
pub fn count_up(buf: &mut [u32])
    requires { length buf.old ≤ particles }
    ensures { buf.new ≡ numbers (length buf.old) }
{
    for i in 0..buf.len() {
        // The cast is proved to fit; try_from would answer an error that can't be.
        buf[i] = i as u32;
    }
}

// The degrees, off the row starts: a row's length less its diagonal.
pub fn fill_degrees(row_offsets: &[u32], degrees: &mut [u32])
    requires row_offsets_len { length row_offsets.now ≡ suc (length degrees.old) }
    requires rising { Rising row_offsets.now (length degrees.old) }
    ensures { degrees.new ≡ degrees_to row_offsets.now (length degrees.old) }
{
    for v in 0..degrees.len() {
        degrees[v] = row_offsets[v + 1] - row_offsets[v] - 1;
    }
}

// Marks those in the list.
pub fn mark_all(list: &[u32], mark: &mut [u32])
    requires { Below (length mark.old) list.now }
    ensures { mark.new ≡ mark_all mark.old list.now }
{
    for w in list {
        mark[law::wide(*w)] = 1;
    }
}

// The list from its end. Place by place: the library's copy asks C for a memmove, which the archives do without.
pub fn reverse_into(from: &[u32], into: &mut [u32])
    requires { length from.now ≡ length into.old }
    ensures { into.new ≡ reverse from.now }
{
    for i in 0..into.len() {
        into[i] = from[from.len() - 1 - i];
    }
}
