// Square roots: of whole numbers, and of f32 as IEEE 754 rounds them. Both answer on every input.
#![tactic(auto)]

ghost use Rattle.std.specs.Prelude.{◌≡◌};
ghost use Rattle.root.specs.Whole.{root_of};
ghost use Rattle.root.specs.Sqrt.{sqrt_of};

pub mod inner;

// The largest whole number whose square is at most n, by Newton's steps. The guess r is never below
// the root and each step lowers it, so the first whose square is at most n is the root. The first
// step is taken from a power of two above the root: its division is a shift, and r * r always fits.
// A `while`: it runs until the guess is right, and counts nothing.
pub fn isqrt(n: u64) -> u64
    ensures { result ≡ root_of n }
{
    let s = (65 - u64::leading_zeros(n)) / 2;
    let mut r = ((1u64 << s) + (n >> s)) / 2;
    while n < r * r {
        r = (r + n / r) / 2;
    }
    r
}

// IEEE 754's squareRoot: correctly rounded, subnormals included.
pub fn root(x: f32) -> f32
    ensures { result ≡ sqrt_of x }
{
    if x == 0.0 {
        return x;
    }
    if x < 0.0 {
        return 0.0 / 0.0;
    }
    if x != x {
        return x;
    }
    let b = f32::to_bits(x);
    if b == 2139095040 {
        return x;
    }
    f32::from_bits(inner::root_bits(b))
}
