// The work of a response, once its tests have passed.
// Lists lent by `&mut` stay parameters: in a struct each clause would have to say that every field keeps its reference.
ghost use Rattle.std.specs.Prelude.{◌≡◌, Ok};
ghost use Rattle.step_routes.specs.System.{system_of};
ghost use Rattle.step_entries.specs.Lent.{entered_of};
ghost use Rattle.step_response.specs.Responding.{given, left, Ready, responded_of, answered, work};

use crate::Responded;
use step_entries::entries::{Entries, gain_of};
use step_routes::system::System;
use step_solve::Stepped;

fn answer(how: Stepped, gain: f32) -> Responded
    ensures { result ≡ responded_of how gain }
{
    match how {
        Stepped::Direct => Responded::Direct { gain },
        Stepped::Iterated(how) => Responded::Iterated { gain, how },
    }
}

// Some entry is left: its step solve, and the gain.
fn solve(
    system: &System,
    pinned: &[u8],
    entries: &Entries,
    out: &mut [f32],
    rhs: &mut [f32],
    scratch: &mut [f32],
    residual: &mut [f32],
    direction: &mut [f32],
    a_direction: &mut [f32],
    z: &mut [f32],
) -> Responded
    requires { Ready
        (given (system_of system.now) pinned.now (entered_of entries.now) out.old rhs.old scratch.old residual.old
        direction.old a_direction.old z.old) }
    ensures { left (Ok result) out.new rhs.new scratch.new residual.new direction.new
        a_direction.new z.new ≡ answered
        (given (system_of system.now) pinned.now (entered_of entries.now) out.old rhs.old scratch.old
        residual.old direction.old a_direction.old z.old) }
{
    let n = system.pattern.n;
    vectors::inner::clear(n, rhs);
    entries.load(n, pinned, rhs);
    let how = step_solve::front::route(
        system,
        rhs,
        out,
        scratch,
        residual,
        direction,
        a_direction,
        z,
    );
    let raw = entries.raw_gain(n, pinned, out);
    vectors::inner::clear(n, rhs);
    answer(how, gain_of(raw))
}

pub fn respond(
    system: &System,
    pinned: &[u8],
    entries: &Entries,
    out: &mut [f32],
    rhs: &mut [f32],
    scratch: &mut [f32],
    residual: &mut [f32],
    direction: &mut [f32],
    a_direction: &mut [f32],
    z: &mut [f32],
) -> Responded
    requires { Ready
        (given (system_of system.now) pinned.now (entered_of entries.now) out.old rhs.old scratch.old residual.old
        direction.old a_direction.old z.old) }
    ensures { left (Ok result) out.new rhs.new scratch.new residual.new direction.new
        a_direction.new z.new ≡ work
        (given (system_of system.now) pinned.now (entered_of entries.now) out.old rhs.old scratch.old
        residual.old direction.old a_direction.old z.old) }
{
    let n = system.pattern.n;
    if entries.any_free(n, pinned) {
        return solve(
            system,
            pinned,
            entries,
            out,
            rhs,
            scratch,
            residual,
            direction,
            a_direction,
            z,
        );
    }
    vectors::inner::clear(n, out);
    vectors::inner::clear(n, rhs);
    step_routes::front::sweep(system.dense(), n, scratch);
    step_routes::front::clear4(n, residual, direction, a_direction, z);
    Responded::Nothing
}
