// A call as a line asks for it: where its lists stand, and what it does on those that it works in.
ghost use Rattle.std.specs.Prelude.{◌≤◌};
ghost use Rattle.replay_tokens.specs.Room.{room};

use replay_tokens::print::Room;

pub trait Call {
    // How many plain numbers stand before the line's lists, and how many lists before the solution and before the scratch.
    const PLAINS: u8;

    const TO_SOLUTION: u8;

    fn to_scratch() -> usize
        ensures { result ≤ 15 };

    fn call(
        w: &[u32],
        line: &[f32],
        solution: &mut [f32],
        scratch: &mut [f32],
        residual: &mut [f32],
        direction: &mut [f32],
        a_direction: &mut [f32],
        z: &mut [f32],
        out: &mut Room,
    ) -> usize
        ensures { result ≤ room };
}
