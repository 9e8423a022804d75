// Lists filled from other lists.
ghost use Rattle.std.specs.Prelude.{◌≡◌, ◌≤◌, length};
ghost use Rattle.law.specs.Gather.{table};
ghost use Rattle.law.specs.Limit.{particles};
ghost use Rattle.order_definition.specs.Envelope.{place_of};
ghost use Rattle.plan_layout.specs.EachOnce.{EachOnce};

// Place by place: the library's copy asks C for a memmove, which the archives do without.
pub fn copy(from: &[u32], into: &mut [u32])
    requires { length from.now ≡ length into.old }
    ensures { into.new ≡ from.now }
{
    for (i, w) in from.iter().enumerate() {
        into[i] = *w;
    }
}

// The place of each number in an order.
pub fn invert(order: &[u32], inverse: &mut [u32])
    requires { EachOnce (length inverse.old) order.now × (length inverse.old ≤ particles) }
    ensures { inverse.new ≡ table (place_of order.now) (length inverse.old) }
{
    for (i, v) in order.iter().enumerate() {
        inverse[law::wide(*v)] = i as u32;
    }
}
