// The operations. Each takes the numbers of its line and writes its answer to the buffer, or answers None where they are not as
// many as it takes.
ghost use Rattle.std.specs.Prelude.{◌+◌, ◌≤◌, ◌<◌, length, IfSome};
ghost use Rattle.replay_tokens.specs.Room.{room};

use replay_tokens::print::{Room, end, float, floats, unknown};
use replay_tokens::word::{gap, numbers, real};

fn vector(w: &[u32], at: usize) -> [f32; 2]
    requires { at + 1 < length w.now }
{
    [real(w[at]), real(w[at + 1])]
}

fn block(w: &[u32], at: usize) -> [[f32; 2]; 2]
    requires { at + 3 < length w.now }
{
    [vector(w, at), vector(w, at + 2)]
}

fn root(w: &[u32], out: &mut Room) -> Option<usize>
    ensures { IfSome result (λ at. at ≤ room) }
{
    if w.len() != 1 {
        return None;
    }
    Some(float(root::root(real(w[0])), out, 0))
}

fn dot(w: &[u32], out: &mut Room) -> Option<usize>
    ensures { IfSome result (λ at. at ≤ room) }
{
    if w.len() != 4 {
        return None;
    }
    Some(float(plane::dot(vector(w, 0), vector(w, 2)), out, 0))
}

fn times(w: &[u32], out: &mut Room) -> Option<usize>
    ensures { IfSome result (λ at. at ≤ room) }
{
    if w.len() != 6 {
        return None;
    }
    Some(floats(&plane::times(block(w, 0), vector(w, 4)), out, 0))
}

fn determinant(w: &[u32], out: &mut Room) -> Option<usize>
    ensures { IfSome result (λ at. at ≤ room) }
{
    if w.len() != 4 {
        return None;
    }
    Some(float(plane::determinant(block(w, 0)), out, 0))
}

fn inverse(w: &[u32], out: &mut Room) -> Option<usize>
    ensures { IfSome result (λ at. at ≤ room) }
{
    if w.len() != 4 {
        return None;
    }
    let r = plane::inverse(block(w, 0));
    let at = floats(&r[0], out, 0);
    Some(floats(&r[1], out, at))
}

// The operations that take plain numbers alone; None where none of them has the name.
fn plain(name: &[u8], w: &[u32], out: &mut Room) -> Option<usize>
    ensures { IfSome result (λ at. at ≤ room) }
{
    match name {
        b"root" => root(w, out),
        b"dot" => dot(w, out),
        b"determinant" => determinant(w, out),
        b"times" => times(w, out),
        b"inverse" => inverse(w, out),
        b"plan" => replay_plan::operation::plan(w, out),
        _ => None,
    }
}

// The first that has the name answers.
fn operate(name: &[u8], w: &[u32], out: &mut Room) -> Option<usize>
    ensures { IfSome result (λ at. at ≤ room) }
{
    if let Some(at) = plain(name, w, out) {
        return Some(at);
    }
    if let Some(at) = replay_gradient::operation::operate(name, w, out) {
        return Some(at);
    }
    if let Some(at) = replay_step::operation::operate(name, w, out) {
        return Some(at);
    }
    if let Some(at) = replay_columns::operation::operate(name, w, out) {
        return Some(at);
    }
    if let Some(at) = replay_direct::operation::operate(name, w, out) {
        return Some(at);
    }
    replay_matrix::operation::operate(name, w, out)
}

pub fn answer(line: &[u8], words: &mut [u32], out: &mut Room) {
    let k = gap(line, 0);
    let Some(count) = numbers(line, k, words) else {
        unknown(out);
        return;
    };
    match operate(&line[..k], &words[..count], out) {
        Some(at) if at > 0 => end(out, at),
        _ => unknown(out),
    }
}
