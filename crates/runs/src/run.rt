// The lines of a response before a course is written into them.
ghost use Rattle.std.specs.Prelude.{◌≡◌};
ghost use Rattle.runs.specs.Runs.{blank_lines};

use course::line::Line;

// Lines of no bay.
pub(crate) fn blank() -> [Line; 24]
    ensures { result ≡ blank_lines }
{
    [Line::default(); 24]
}
