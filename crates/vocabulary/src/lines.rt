// The lines, by condition and test.
ghost use Rattle.std.specs.Prelude.{◌≡◌};
ghost use Rattle.vocabulary.specs.Readings.{lines_of, line_under};

use crate::condition::Condition;
use crate::test::Test;
use bounds::line::Line;

// The numbers of a line, as a row of the table holds them.
#[derive(Clone, Copy, PartialEq, Eq)]
pub struct Terms {
    pub percent: u32,
    pub cap: u32,
    pub floor: i32,
}

// The lines of an hour: ten tests under each of five conditions.
pub type Lines = [Option<Terms>; 50];

// The line of a test under the condition in force.
pub fn line(lines: &Lines, condition: Option<Condition>, test: Test) -> Option<Line>
    ensures { result ≡ line_under (lines_of lines.now) condition test }
{
    let terms = lines[10 * condition?.number() + test.number()]?;
    Line::new(terms.percent, terms.cap, terms.floor)
}
