// One pass over a text, a byte at a time. Its end counts as one more space, so that the last number ends like any other.
ghost use Rattle.std.specs.Prelude.{◌≡◌, ◌≤◌, length, Some};
ghost use Rattle.law.specs.Limit.{bytes as byteLimit};
ghost use Rattle.bench_scan.specs.Numbers.{is_gap, is_digit};
ghost use Rattle.bench_scan.specs.Scan.{from_gap, from_word, step_to, count_of, place_to, room_to, State, scan_to};

// Where a pass stands: after k numbers, none begun; after k numbers, one begun, with its value so far. A pass over a bad text stands nowhere: None.
#[derive(Clone, Copy, Debug, PartialEq, Eq)]
pub enum Stand {
    Gap(usize),
    Word(usize, u32),
}

#[tactic(auto, unfolding(crate::specs::Numbers::is_gap))]
fn is_gap(b: u8) -> bool
    ensures { result ≡ is_gap b }
{
    (b == b' ') | (b == b'\n')
}

#[tactic(auto, unfolding(crate::specs::Numbers::is_digit))]
fn is_digit(b: u8) -> bool
    ensures { result ≡ is_digit b }
{
    b.is_ascii_digit()
}

#[tactic(auto, unfolding(crate::specs::Scan::from_gap), using(crate::specs::Numbers::digit_at))]
fn from_gap(b: u8, k: usize) -> Option<Stand>
    ensures { result ≡ from_gap b k }
{
    if is_gap(b) {
        return Some(Stand::Gap(k));
    }
    if is_digit(b) {
        return Some(Stand::Word(k, u32::from(b - b'0')));
    }
    None
}

#[tactic(auto, unfolding(crate::specs::Scan::from_word, crate::specs::Scan::kept, crate::specs::Numbers::small), using(crate::specs::Numbers::digit_at))]
fn from_word(b: u8, k: usize, v: u32) -> Option<Stand>
    requires { k ≤ byteLimit }
    ensures { result ≡ from_word b k v }
{
    if is_gap(b) {
        return Some(Stand::Gap(k + 1));
    }
    if is_digit(b) {
        let w = v.checked_mul(10)?.checked_add(u32::from(b - b'0'))?;
        return Some(Stand::Word(k, w));
    }
    None
}

// The byte b moves the pass on.
#[tactic(auto, unfolding(crate::specs::Scan::step_to))]
fn step(b: u8, s: Stand) -> Option<Stand>
    requires { count_of (Some s) ≤ byteLimit }
    ensures { result ≡ step_to b (Some s) }
{
    match s {
        Stand::Gap(k) => from_gap(b, k),
        Stand::Word(k, v) => from_word(b, k, v),
    }
}

// Stores the number k of the text, counting from 0, unless it is one of the first `from` or past the room.
#[tactic(auto, unfolding(crate::specs::Scan::place_to))]
fn place(from: usize, k: usize, v: u32, room: &mut [u32])
    ensures { room.new ≡ place_to from k v room.old }
{
    if k < from {
        return;
    }
    let at = k - from;
    if room.len() <= at {
        return;
    }
    room[at] = v;
}

// Stores the number that the byte b ends, if it ends one.
#[tactic(auto, unfolding(crate::specs::Scan::room_to))]
fn store(from: usize, b: u8, s: Stand, room: &mut [u32])
    ensures { room.new ≡ room_to from b (Some s) room.old }
{
    if let Stand::Word(k, v) = s
        && is_gap(b)
    {
        place(from, k, v, room);
    }
}

// A whole text, its numbers from the number `from` on stored as far as the room goes.
pub fn scanned(text: &[u8], from: usize, room: &mut [u32]) -> Option<Stand>
    requires { length text.now ≤ byteLimit }
    ensures { ◌≡◌ {A = State} (result, room.new) (scan_to from text.now room.old) }
{
    let mut s = Stand::Gap(0);
    for b in text {
        store(from, *b, s, room);
        s = step(*b, s)?;
    }
    store(from, b' ', s, room);
    step(b' ', s)
}
