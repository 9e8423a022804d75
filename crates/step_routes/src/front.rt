// The buffers that a route leaves zeroed, and the iteration from zero.
// Lists lent by `&mut` stay parameters: in a struct each clause would have to say that every field keeps its reference.
ghost use Rattle.std.specs.Prelude.{◌≡◌, true, ◌*◌, ◌≤◌, length, Ok};
ghost use Rattle.gradient_doors.specs.Solving as G;
ghost use Rattle.step_routes.specs.Dense.{cleared, swept, for_gradient};
ghost use Rattle.step_routes.specs.System.{system_of};

use crate::system::System;
use gradient_definition::Outcome;

pub fn clear4(n: usize, a: &mut [f32], b: &mut [f32], c: &mut [f32], d: &mut [f32])
    requires { (2 * n ≤ length a.old) × (2 * n ≤ length b.old) × (2 * n ≤ length c.old) × (2 * n ≤ length d.old) }
    ensures { (a.new ≡ cleared n a.old) × (b.new ≡ cleared n b.old) ×
        (c.new ≡ cleared n c.old) × (d.new ≡ cleared n d.old) }
{
    vectors::inner::clear(n, a);
    vectors::inner::clear(n, b);
    vectors::inner::clear(n, c);
    vectors::inner::clear(n, d);
}

// The scratch is a work buffer only where the plan counts.
#[tactic(auto, unfolding(crate::specs::Dense::swept))]
pub fn sweep(dense: bool, n: usize, scratch: &mut [f32])
    requires { dense ≡ true → 2 * n ≤ length scratch.old }
    ensures { scratch.new ≡ swept dense n scratch.old }
{
    if dense {
        vectors::inner::clear(n, scratch);
    }
}

pub fn solve_from_zero(
    system: &System,
    b: &[f32],
    x: &mut [f32],
    residual: &mut [f32],
    direction: &mut [f32],
    a_direction: &mut [f32],
    z: &mut [f32],
) -> Outcome
    requires { G.Ready
        (for_gradient (system_of system.now) b.now x.old residual.old direction.old a_direction.old z.old) }
    ensures { G.left (Ok result) x.new residual.new direction.new a_direction.new z.new ≡ G.work
        (for_gradient (system_of system.now) b.now (cleared system.now.pattern.n x.old) residual.old
        direction.old a_direction.old z.old) }
{
    vectors::inner::clear(system.pattern.n, x);
    gradient_doors::front::solve(
        &system.pattern,
        system.blocks,
        system.preconditioner,
        b,
        system.settings,
        x,
        residual,
        direction,
        a_direction,
        z,
    )
}
