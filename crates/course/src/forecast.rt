// The forecast of a course: a step that decides and two routines, one for each kind of line, that call it back. The form was
// asked for.
ghost use Rattle.std.specs.Prelude.{◌≡◌, ◌+◌, ◌*◌};
ghost use Rattle.course.specs.Written.{forecast_of};
ghost use Rattle.model.specs.Course.{capped};

use crate::line::Line;

// The step that decides between the two kinds of line. An empty course has one visit.
#[cycle(forecasts)]
pub(crate) fn forecast(course: &[Line]) -> u64
    ensures { result ≡ capped (forecast_of course.now) }
{
    match course {
        [] => 1,
        [line, rest @ ..] => {
            if line.folded {
                folded(rest)
            } else {
                branched(line.choices, rest)
            }
        }
    }
}

#[cycle(forecasts)]
fn folded(rest: &[Line]) -> u64
    ensures { result ≡ capped (1 + forecast_of rest.now) }
{
    forecast(rest).saturating_add(1)
}

#[cycle(forecasts)]
fn branched(choices: u8, rest: &[Line]) -> u64
    ensures { result ≡ capped (1 + choices * forecast_of rest.now) }
{
    forecast(rest)
        .saturating_mul(u64::from(choices))
        .saturating_add(1)
}
