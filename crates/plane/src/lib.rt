// Plane numbers: a vector is two numbers, a block two columns of two numbers, both by value. The arithmetic of the rules, module 1: no operation is fused,
// and every operand stands where they have it.
#![tactic(auto)]

ghost use Rattle.std.specs.Prelude.{◌≡◌};
ghost use Rattle.plane.specs.Plane.{add_of, sub_of, scale_of, dot_of, times_of, determinant_of, inverse_of, finite, block_finite};

pub type Vector = [f32; 2];

pub type Block = [[f32; 2]; 2];

pub fn add(u: Vector, v: Vector) -> Vector
    ensures { result ≡ add_of u v }
{
    [u[0] + v[0], u[1] + v[1]]
}

pub fn sub(u: Vector, v: Vector) -> Vector
    ensures { result ≡ sub_of u v }
{
    [u[0] - v[0], u[1] - v[1]]
}

pub fn scale(v: Vector, k: f32) -> Vector
    ensures { result ≡ scale_of v k }
{
    [v[0] * k, v[1] * k]
}

pub fn dot(u: Vector, v: Vector) -> f32
    ensures { result ≡ dot_of u v }
{
    u[0] * v[0] + u[1] * v[1]
}

// A block times a vector.
pub fn times(m: Block, v: Vector) -> Vector
    ensures { result ≡ times_of m v }
{
    [
        m[0][0] * v[0] + m[1][0] * v[1],
        m[0][1] * v[0] + m[1][1] * v[1],
    ]
}

pub fn determinant(m: Block) -> f32
    ensures { result ≡ determinant_of m }
{
    m[0][0] * m[1][1] - m[1][0] * m[0][1]
}

// Total: a block whose determinant is zero has infinities or NaN in its inverse.
pub fn inverse(m: Block) -> Block
    ensures { result ≡ inverse_of m }
{
    let r = 1.0 / determinant(m);
    let s = -r;
    [[m[1][1] * r, m[0][1] * s], [m[1][0] * s, m[0][0] * r]]
}

fn finite_number(a: f32) -> bool
    ensures { result ≡ finite a }
{
    let top = 1.0f32 / 0.0;
    (-top < a) & (a < top)
}

// Whether no entry of a block is an infinity or a NaN.
pub fn is_finite(m: Block) -> bool
    ensures { result ≡ block_finite m }
{
    finite_number(m[0][0])
        & finite_number(m[0][1])
        & finite_number(m[1][0])
        & finite_number(m[1][1])
}
