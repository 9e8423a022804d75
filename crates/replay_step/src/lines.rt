// What a line hands both calls: the system, whose numbers and lists stand first on either's line.
use gradient_definition::Settings;
use law::wide;
use replay_tokens::lent::{pattern, plan};
use replay_tokens::list::{plain, reals};
use replay_tokens::word::real;
use step_routes::system::System;

// Behind `at` plain numbers.
pub fn system<'a>(w: &'a [u32], line: &'a [f32], at: usize) -> System<'a> {
    System {
        pattern: pattern(w, at),
        blocks: reals(w, line, at, 3),
        plan: plan(w, at, 4),
        values: reals(w, line, at, 8),
        factored: plain(w, 4) != 0,
        preconditioner: reals(w, line, at, 9),
        settings: Settings {
            tolerance: real(plain(w, 2)),
            max_iterations: wide(plain(w, 1)),
        },
        max_dense_dofs: wide(plain(w, 3)),
    }
}
