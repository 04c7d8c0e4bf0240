// Figures that ask a bound about two values.
ghost use Rattle.std.specs.Prelude.{◌≡◌};
ghost use Rattle.worked.specs.BoundFigures.{meaning_of, answered, holds as holds_of};

use bounds::bound::Bound;
use bounds::ceiling::Ceiling;
use bounds::exemption::Exemption;
use bounds::line::Line;
use bounds::shortfall::Shortfall;

// The bound that a figure asks.
#[derive(Clone, Copy)]
pub enum Asked {
    Ceiling,
    Exemption,
    Shortfall,
}

// A line, a reference, a value that passes and one that fails.
#[derive(Clone, Copy)]
pub struct BoundFigure {
    pub asked: Asked,
    pub percent: u32,
    pub cap: u32,
    pub floor: i32,
    pub reference: i32,
    pub passes: i32,
    pub fails: i32,
}

fn passes(asked: Asked, line: &Line, reference: i32, value: i32) -> bool
    ensures { result ≡ meaning_of asked line.now reference value }
{
    match asked {
        Asked::Ceiling => Ceiling.passes(line, reference, value),
        Asked::Exemption => Exemption { under: Ceiling }.passes(line, reference, value),
        Asked::Shortfall => Shortfall.passes(line, reference, value),
    }
}

impl BoundFigure {
    // Whether a value passes, or nothing where the line is out of range.
    pub fn answer(&self, value: i32) -> Option<bool>
        ensures { result ≡ answered self.now value }
    {
        let line = Line::new(self.percent, self.cap, self.floor)?;
        Some(passes(self.asked, &line, self.reference, value))
    }

    // Whether the code answers as the figure says.
    pub fn agrees(&self) -> bool
        ensures { result ≡ holds_of self.now }
    {
        self.answer(self.passes) == Some(true) && self.answer(self.fails) == Some(false)
    }
}
