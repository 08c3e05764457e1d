// Whether a frame's text fits its line.
ghost use Rattle.std.specs.Prelude.{◌≡◌, true};
ghost use Rattle.line.specs.Line.{within_limits};
ghost use Rattle.looking.specs.Fitting.{text_fits};

use line::Line;

// Whether n bytes of a frame's text lie in what the line has collected, and fit behind its joined text.
pub fn fits(line: Line, n: usize) -> bool
    requires { within_limits line ≡ true }
    ensures { result ≡ text_fits line n }
{
    line.collected >= 5
        && n <= line.collected as usize - 5
        && line.joined as usize + n <= memory::MESSAGE_LIMIT
}
