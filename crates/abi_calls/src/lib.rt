// The C ABI: numbers and slices over the public calls. A slice is a pointer and a length in C, and a refusal is a byte.
#![tactic(auto)]

ghost use Rattle.std.specs.Prelude.{◌≡◌};
ghost use Rattle.plane.specs.Plane.{pair, dot_of, times_of, determinant_of, inverse_of};
ghost use Rattle.plane.specs.Lent.{flat};
ghost use Rattle.root.specs.Sqrt.{sqrt_of};
ghost use Rattle.abi_answers.specs.Numbers.{answered, Numbered};
ghost use Rattle.abi_floats.specs.Handed.{handed, left};

use abi_answers::number;

mod conjugate;
mod matrix;
mod plan;
mod row;
mod solver;

#[unsafe(no_mangle)]
pub extern "C" fn bracket_root(x: f32) -> f32
    ensures { result ≡ sqrt_of x }
{
    root::root(x)
}

#[unsafe(no_mangle)]
pub extern "C" fn bracket_dot(ux: f32, uy: f32, vx: f32, vy: f32) -> f32
    ensures { result ≡ dot_of (pair ux uy) (pair vx vy) }
{
    plane::dot([ux, uy], [vx, vy])
}

#[unsafe(no_mangle)]
pub extern "C" fn bracket_determinant(c0x: f32, c0y: f32, c1x: f32, c1y: f32) -> f32
    ensures { result ≡ determinant_of (pair (pair c0x c0y) (pair c1x c1y)) }
{
    plane::determinant([[c0x, c0y], [c1x, c1y]])
}

// The product's two numbers into the front of out, or 3.
#[unsafe(no_mangle)]
pub extern "C" fn bracket_times(
    c0x: f32,
    c0y: f32,
    c1x: f32,
    c1y: f32,
    vx: f32,
    vy: f32,
    out: &mut [f32],
) -> u8
    ensures { Numbered (handed (times_of (pair (pair c0x c0y) (pair c1x c1y)) (pair vx vy))) (λ o. o.answer) answered out.old
        result (λ a. left a out.new) }
{
    let product = plane::times([[c0x, c0y], [c1x, c1y]], [vx, vy]);
    number(&abi_floats::lent::vector(product, out))
}

// The inverse's four numbers, column 0 first, into the front of out, or 3.
#[unsafe(no_mangle)]
pub extern "C" fn bracket_inverse(c0x: f32, c0y: f32, c1x: f32, c1y: f32, out: &mut [f32]) -> u8
    ensures { Numbered (handed (flat (inverse_of (pair (pair c0x c0y) (pair c1x c1y))))) (λ o. o.answer) answered out.old
        result (λ a. left a out.new) }
{
    let inverse = plane::inverse([[c0x, c0y], [c1x, c1y]]);
    number(&abi_floats::lent::block(inverse, out))
}
