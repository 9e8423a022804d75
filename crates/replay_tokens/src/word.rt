// The tokens of a line: after the operation's word each is a space and a number, either x and a float's bits as eight digits
// in base 16 or a whole number in base 10.
ghost use Rattle.std.specs.Prelude.{◌≡◌, ◌+◌, ◌*◌, ◌≤◌, ◌<◌, length, IfSome};

// The first space at or after `from`, or the line's end.
pub fn gap(line: &[u8], from: usize) -> usize
    requires { from ≤ length line.now }
    ensures { (from ≤ result) × (result ≤ length line.now) }
{
    for i in from..line.len() {
        if line[i] == b' ' {
            return i;
        }
    }
    line.len()
}

// A digit's value in base 10 or 16. Std's to_digit would take capitals too.
fn digit(b: u8, base: u32) -> Option<u32>
    ensures { IfSome result (λ value. (value < base) × (value < 16)) }
{
    let value = match b {
        b'0'..=b'9' => u32::from(b - b'0'),
        b'a'..=b'f' => u32::from(b - b'a') + 10,
        _ => return None,
    };
    if value < base { Some(value) } else { None }
}

// The number with one digit more at its end.
fn shifted(value: u32, base: u32, last: u32) -> Option<u32>
    ensures { IfSome result (λ more. more ≡ value * base + last) }
{
    value.checked_mul(base)?.checked_add(last)
}

// A number of 32 bits, of such digits alone.
fn number(text: &[u8], base: u32) -> Option<u32> {
    let mut value = 0u32;
    for b in text {
        value = shifted(value, base, digit(*b, base)?)?;
    }
    Some(value)
}

fn token(text: &[u8]) -> Option<u32> {
    match text {
        [] => None,
        [b'x', ..] if text.len() == 9 => number(&text[1..], 16),
        _ => number(text, 10),
    }
}

// The while goes from gap to gap, by as many bytes as a token has.
// The numbers of a line from its first gap on, and how many they are; None where some token is none, or has no room.
pub fn numbers(line: &[u8], from: usize, words: &mut [u32]) -> Option<usize>
    requires { from ≤ length line.now }
    ensures { IfSome result (λ count. count ≤ length words.old) }
{
    let mut at = from;
    let mut count = 0usize;
    while at < line.len() {
        let start = at + 1;
        let end = gap(line, start);
        if count == words.len() {
            return None;
        }
        words[count] = token(&line[start..end])?;
        count += 1;
        at = end;
    }
    Some(count)
}

// The float of a pattern. from_bits is proved only for patterns that are no NaN's, so a NaN is made by a division.
pub fn real(bits: u32) -> f32 {
    if bits % 0x8000_0000 > 0x7f80_0000 {
        return 0.0 / 0.0;
    }
    f32::from_bits(bits)
}
