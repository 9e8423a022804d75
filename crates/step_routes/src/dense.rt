// Tests that are made only where the plan counts: elsewhere they pass, and nothing is read.
// `dense` stands beside a plan that is always lent, as over C: an Option would be one more form of it, and `when dense` is what the definitions say.
ghost use Rattle.std.specs.Prelude.{◌≡◌, true, ◌*◌, ◌≤◌, leb, length};
ghost use Rattle.law.specs.Limit.{particles, envelope};
ghost use Rattle.law.specs.Refusal.{when};
ghost use Rattle.matrix_shape.specs.Shape.{IsPattern, lists};
ghost use Rattle.plan_fits.specs.Layout.{IsLaid, length_of, plan_lists};
ghost use Rattle.step_routes.specs.Dense.{held_plan, fitting};

use matrix_shape::pattern::Pattern;
use plan_fits::plan::Plan;

#[tactic(auto, unfolding(law::specs::Refusal::when, crate::specs::Dense::plan_held), using(plan_fits::specs::Given::laid))]
pub fn plan_held(dense: bool, n: usize, plan: &Plan, values: &[f32]) -> bool
    requires { n ≤ particles }
    ensures { result ≡ when dense (held_plan n (plan_lists plan.now) values.now) }
{
    !dense || plan.has_room(n) && plan.factor_len(n) <= values.len()
}

#[tactic(auto, unfolding(law::specs::Refusal::when))]
pub fn scratch_room(dense: bool, n: usize, scratch: &[f32]) -> bool
    requires { n ≤ particles }
    ensures { result ≡ when dense (leb (2 * n) (length scratch.now)) }
{
    !dense || 2 * n <= scratch.len()
}

#[tactic(auto, unfolding(law::specs::Refusal::when))]
pub fn plan_fits(dense: bool, pattern: &Pattern, plan: &Plan) -> bool
    requires pattern { IsPattern (lists pattern.now) }
    requires laid { dense ≡ true → IsLaid pattern.now.n (plan_lists plan.now) }
    ensures { result ≡ when dense (fitting (lists pattern.now) (plan_lists plan.now)) }
{
    !dense || plan_inside::inside::fits(pattern, plan)
}

// Whether the factor is within the limit.
#[tactic(auto, unfolding(law::specs::Refusal::when))]
pub fn plan_short(dense: bool, n: usize, plan: &Plan) -> bool
    requires { dense ≡ true → IsLaid n (plan_lists plan.now) }
    ensures { result ≡ when dense (leb (length_of n (plan_lists plan.now)) envelope) }
{
    !dense || plan.factor_len(n) <= law::ENVELOPE
}
