// The lists of a line, behind its plain numbers: each is its length and its items. A list that the line doesn't have in full ends
// where the line does, but then `filled` says no. Lists are asked for by how many plain numbers and how many lists stand before them,
// and come as slices, so that whoever asks has no place to keep and nothing to show of it.
ghost use Rattle.std.specs.Prelude.{◌≤◌, length};

use crate::word::real;

// The longest list that is taken: building with all the pairs that may be given needs about as much.
pub const LONGEST: usize = 8256;

// The most words of a line.
pub const WORDS: usize = 32768;

// The i-th plain number; 0 where the line is too short for it.
pub fn plain(w: &[u32], i: usize) -> u32 {
    if i < w.len() { w[i] } else { 0 }
}

// Where the items of the list at `at` start.
fn start(w: &[u32], at: usize) -> usize
    ensures { result ≤ length w.now }
{
    if at < w.len() { at + 1 } else { w.len() }
}

// Where the items end that start here, by the length that stands before them; the next list is there.
fn stop(w: &[u32], start: usize) -> usize
    requires { start ≤ length w.now }
    ensures { (start ≤ result) × (result ≤ length w.now) }
{
    if start == 0 {
        return 0;
    }
    let count = law::wide(w[start - 1]);
    if count > w.len() - start {
        return w.len();
    }
    start + count
}

// The place of the list behind the one at `at`.
fn next(w: &[u32], at: usize) -> usize {
    stop(w, start(w, at))
}

// The place behind so many lists from `at` on.
fn behind_all(w: &[u32], at: usize, lists: usize) -> usize {
    let mut to = at;
    for _ in 0..lists {
        to = next(w, to);
    }
    to
}

// The items of the list that has `lists` lists before it, behind `at` plain numbers.
pub fn wholes(w: &[u32], at: usize, lists: usize) -> &[u32] {
    let a = start(w, behind_all(w, at, lists));
    let b = stop(w, a);
    &w[a..b]
}

// The same items out of all the line's words as floats, which end where the line does.
pub fn reals<'w, 'a>(w: &'w [u32], line: &'a [f32], at: usize, lists: usize) -> &'a [f32] {
    let from = start(w, behind_all(w, at, lists));
    let b = stop(w, from).min(line.len());
    let a = from.min(b);
    &line[a..b]
}

// As next, where the line has the list at `at` in full and it isn't too long.
fn behind(w: &[u32], at: usize) -> Option<usize> {
    if at >= w.len() {
        return None;
    }
    let count = law::wide(w[at]);
    if count > LONGEST || count > w.len() - at - 1 {
        return None;
    }
    Some(at + 1 + count)
}

// Whether the words from `at` on are just so many lists, none too long.
pub fn filled(w: &[u32], at: usize, lists: usize) -> bool {
    let mut to = at;
    for _ in 0..lists {
        let Some(next) = behind(w, to) else {
            return false;
        };
        to = next;
    }
    to == w.len()
}

// What is no byte becomes the largest.
fn byte(item: u32) -> u8 {
    item.min(255) as u8
}

// The items as `reads` takes them, in a buffer's front.
fn front<'a, T: Copy, F: Fn(u32) -> T>(items: &[u32], to: &'a mut [T], reads: F) -> &'a mut [T]
    requires { F.IsAlwaysCallable reads }
{
    let n = items.len().min(to.len());
    for i in 0..n {
        to[i] = reads(items[i]);
    }
    &mut to[..n]
}

// The same items, in a buffer's front.
pub fn lent_wholes<'a>(w: &[u32], at: usize, lists: usize, to: &'a mut [u32]) -> &'a mut [u32] {
    front(wholes(w, at, lists), to, |item| item)
}

pub fn lent_reals<'a>(w: &[u32], at: usize, lists: usize, to: &'a mut [f32]) -> &'a mut [f32] {
    front(wholes(w, at, lists), to, real)
}

pub fn lent_bytes<'a>(w: &[u32], at: usize, lists: usize, to: &'a mut [u8]) -> &'a mut [u8] {
    front(wholes(w, at, lists), to, byte)
}

// All the line's words as floats, in a buffer's front: what `reals` takes lists from.
pub fn as_reals<'a>(w: &[u32], to: &'a mut [f32]) -> &'a mut [f32] {
    front(w, to, real)
}
