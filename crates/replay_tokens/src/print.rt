// Answer lines, through a buffer that is written out when it is full and at the end of each line. Every token is followed by
// a space, and the last space of a line becomes its end.
ghost use Rattle.std.specs.Prelude.{◌≤◌, ◌<◌, length};
ghost use Rattle.replay_tokens.specs.Room.{room};

use std::io;
use std::io::{Print, Stdout};

pub const ROOM: usize = 4096;

// The buffer, where it is written out to, and whether all of that went well: after a write that failed nothing more is written.
#[derive(Drop)]
pub struct Room {
    bytes: [u8; ROOM],
    stdout: Stdout,
    written: io::Result<()>,
}

pub fn empty(stdout: Stdout) -> Room {
    Room {
        bytes: [0; ROOM],
        stdout,
        written: Ok(()),
    }
}

// Whether every byte was written out.
pub fn written(out: Room) -> io::Result<()> {
    out.written
}

fn write_front(stdout: Stdout, bytes: &[u8], n: usize) -> io::Result<()>
    requires { n ≤ length bytes.now }
{
    stdout.write_all(&bytes[..n])
}

fn flush(out: &mut Room, n: usize)
    requires { n ≤ room }
{
    if out.written.is_err() {
        return;
    }
    out.written = write_front(out.stdout, &out.bytes, n);
}

fn put(b: u8, out: &mut Room, at: usize) -> usize
    requires { at ≤ room }
    ensures { (0 < result) × (result ≤ room) }
{
    if at == ROOM {
        flush(out, at);
        out.bytes[0] = b;
        return 1;
    }
    out.bytes[at] = b;
    at + 1
}

fn text(bytes: &[u8], out: &mut Room, at: usize) -> usize
    requires { at ≤ room }
    ensures { result ≤ room }
{
    let mut to = at;
    for b in bytes {
        to = put(*b, out, to);
    }
    to
}

pub fn word(bytes: &[u8], out: &mut Room, at: usize) -> usize
    requires { at ≤ room }
    ensures { (0 < result) × (result ≤ room) }
{
    let to = text(bytes, out, at);
    put(b' ', out, to)
}

// The digit of a number below 16, in base 16.
fn hex_digit(v: u32) -> u8
    requires { v < 16 }
{
    if v < 10 {
        b'0' + v as u8
    } else {
        b'a' + (v as u8 - 10)
    }
}

fn pattern(bits: u32, out: &mut Room, at: usize) -> usize
    requires { at ≤ room }
    ensures { (0 < result) × (result ≤ room) }
{
    let mut digits = [0u8; 8];
    let mut rest = bits;
    for i in 0..8 {
        digits[7 - i] = hex_digit(rest % 16);
        rest /= 16;
    }
    let to = put(b'x', out, at);
    word(&digits, out, to)
}

// Any NaN is the same word, since the rules leave its bits open.
pub fn float(v: f32, out: &mut Room, at: usize) -> usize
    requires { at ≤ room }
    ensures { (0 < result) × (result ≤ room) }
{
    if v != v {
        return word(b"nan", out, at);
    }
    pattern(f32::to_bits(v), out, at)
}

pub fn floats(list: &[f32], out: &mut Room, at: usize) -> usize
    requires { at ≤ room }
    ensures { result ≤ room }
{
    let mut to = at;
    for v in list {
        to = float(*v, out, to);
    }
    to
}

pub fn whole(v: u64, out: &mut Room, at: usize) -> usize
    requires { at ≤ room }
    ensures { (0 < result) × (result ≤ room) }
{
    let mut digits = [0u8; 20];
    let mut start = 20usize;
    let mut rest = v;
    for i in 0..20 {
        start = 19 - i;
        digits[start] = b'0' + (rest % 10) as u8;
        rest /= 10;
        if rest == 0 {
            break;
        }
    }
    word(&digits[start..], out, at)
}

// A list is its length and its items.
pub fn whole_list(list: &[u32], out: &mut Room, at: usize) -> usize
    requires { at ≤ room }
    ensures { result ≤ room }
{
    let mut to = whole(list.len() as u64, out, at);
    for v in list {
        to = whole(u64::from(*v), out, to);
    }
    to
}

pub fn float_list(list: &[f32], out: &mut Room, at: usize) -> usize
    requires { at ≤ room }
    ensures { result ≤ room }
{
    let to = whole(list.len() as u64, out, at);
    floats(list, out, to)
}

// Ends the line. Its last space still stands in the buffer, since bytes are written out only when the next one comes.
pub fn end(out: &mut Room, at: usize)
    requires { (0 < at) × (at ≤ room) }
{
    out.bytes[at - 1] = b'\n';
    flush(out, at);
}

// The answer to a line that has none. No operation's answer looks like it.
pub fn unknown(out: &mut Room) {
    let at = word(b"?", out, 0);
    end(out, at);
}
