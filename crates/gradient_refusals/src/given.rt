// Settings as a call is handed them: whether a solve takes them.
ghost use Rattle.std.specs.Prelude.{◌≡◌};
ghost use Rattle.gradient_refusals.specs.Settings.{settings_ok};

use gradient_definition::Settings;

// At least zero also holds of -0.0; below infinity of no NaN.
pub fn settings_ok(settings: Settings) -> bool
    ensures { result ≡ settings_ok settings.tolerance settings.max_iterations }
{
    (0.0 <= settings.tolerance)
        & (settings.tolerance < f32::INFINITY)
        & (settings.max_iterations <= law::ITERATIONS)
}
