// A `put_` function writes from the place `at` on and answers the place past what it wrote; a
// `write_` function writes a whole answer at the buffer's front and answers its length.
// A writer that keeps buffer and place would be no plainer: each clause would have to say that it keeps the buffer, and `Put` names both places.
ghost use Rattle.std.specs.Prelude.{◌+◌, ◌≤◌, length};
ghost use Rattle.law.specs.Put.{Put, Written};
ghost use Rattle.bench_print.specs.Digits.{digits};
ghost use Rattle.bench_print.specs.Lines.{item, listed, order_line, number_line, plan_text, refused_text, lines_room, refused_room};

// The decimal digits of n, as `digits` has them. fmt's writers can fail, which this call can't.
pub fn put_number(n: u32, at: usize, out: &mut [u8]) -> usize
    requires { at + length (digits n) ≤ length out.old }
    ensures { Put (digits n) at out.old out.new result }
{
    if n < 10 {
        out[at] = b'0' + n as u8;
        return at + 1;
    }
    let next = put_number(n / 10, at, out);
    out[next] = b'0' + (n % 10) as u8;
    next + 1
}

// The bytes of a text.
pub fn put_bytes(at: usize, text: &[u8], out: &mut [u8]) -> usize
    requires { at + length text.now ≤ length out.old }
    ensures { Put text.now at out.old out.new result }
{
    let end = at + text.len();
    out[at..end].copy_from_slice(text);
    end
}

// A space and a number.
fn put_item(x: u32, at: usize, out: &mut [u8]) -> usize
    requires { at + length (item x) ≤ length out.old }
    ensures { Put (item x) at out.old out.new result }
{
    out[at] = b' ';
    put_number(x, at + 1, out)
}

// Each number of a list, with a space before it.
pub fn put_list(at: usize, list: &[u32], out: &mut [u8]) -> usize
    requires { at + length (listed list.now) ≤ length out.old }
    ensures { Put (listed list.now) at out.old out.new result }
{
    let mut to = at;
    for x in list {
        to = put_item(*x, to, out);
    }
    to
}

// The line of an order.
fn put_order(at: usize, order: &[u32], out: &mut [u8]) -> usize
    requires { at + length (order_line order.now) ≤ length out.old }
    ensures { Put (order_line order.now) at out.old out.new result }
{
    let a = put_bytes(at, b"order", out);
    let b = put_list(a, order, out);
    put_bytes(b, b"\n", out)
}

// A line of a word and a number.
fn put_line(at: usize, n: u32, word: &[u8], out: &mut [u8]) -> usize
    requires { at + length (number_line word.now n) ≤ length out.old }
    ensures { Put (number_line word.now n) at out.old out.new result }
{
    let a = put_bytes(at, word, out);
    let b = put_number(n, a, out);
    put_bytes(b, b"\n", out)
}

// What is printed of a plan: its order, and how long its envelope is.
pub fn write_plan(envelope: u32, order: &[u32], out: &mut [u8]) -> usize
    requires { lines_room (length order.now) ≤ length out.old }
    ensures { Written (plan_text order.now envelope) out.old out.new result }
{
    let at = put_order(0, order, out);
    put_line(at, envelope, b"envelope ", out)
}

// What is printed of a refusal.
pub fn write_refused(number: u8, out: &mut [u8]) -> usize
    requires { refused_room ≤ length out.old }
    ensures { Written (refused_text number) out.old out.new result }
{
    put_line(0, u32::from(number), b"refused ", out)
}
