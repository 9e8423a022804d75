// The system of a step as a call is handed it: its matrix, the plan and the factor, the preconditioner, and how it is solved.
ghost use Rattle.std.specs.Prelude.{◌≡◌, ◌≤◌};
ghost use Rattle.law.specs.Limit.{particles};
ghost use Rattle.step_routes.specs.System.{system_of, is_dense};

use gradient_definition::Settings;
use matrix_shape::pattern::Pattern;
use plan_fits::plan::Plan;

// `values` is the factor of the matrix where the mark `factored` is set. Whatever is lent may stand here: a call tests it.
#[derive(Clone, Copy)]
pub struct System<'a> {
    pub pattern: Pattern<'a>,
    pub blocks: &'a [f32],
    pub plan: Plan<'a>,
    pub values: &'a [f32],
    pub factored: bool,
    pub preconditioner: &'a [f32],
    pub settings: Settings,
    pub max_dense_dofs: usize,
}

impl<'a> System<'a> {
    // Whether the plan and the factor count.
    pub fn dense(&self) -> bool
        requires { self.now.pattern.n ≤ particles }
        ensures { result ≡ is_dense (system_of self.now) }
    {
        2 * self.pattern.n <= self.max_dense_dofs
    }
}
