// What a bound is.
ghost use Rattle.std.specs.Prelude.{◌≡◌, true, ℤ};
ghost use Rattle.bounds.specs.declared.line.Line.{Line};
ghost use Rattle.bounds.specs.declared.side.Side.{Side};
ghost use Rattle.bounds.specs.declared.side.Side.TheVariants.{Below, Above};
ghost use Rattle.bounds.specs.Meanings.{Meaning, Harmless};

use crate::line::Line;
use crate::side::Side;

// Asked about a value beside its reference, a bound answers by the line whether it passes.
pub trait Bound {
    // the side on which a value does no harm
    ghost harmless: { Side };

    // the values that it lets pass, under each line and beside each reference
    ghost meaning: { Self → Meaning };

    const SIDE: Side;

    // The constant, with the promise that a constant cannot carry.
    fn harmless_side() -> Side
        ensures { result ≡ harmless };

    fn passes(&self, line: &Line, reference: i32, value: i32) -> bool
        ensures { result ≡ meaning self.now line.now reference value };

    // the reference itself, and what lies on its harmless side, passes under every line
    ghost spares: { (b : Self) (l : Line) (r v : ℤ) → Harmless harmless r v → meaning b l r v ≡ true };
}

// A bound for a place where values below the reference do no harm.
pub trait BoundBelow: Bound {
    ghost below: { Self.Bound.harmless ≡ Below };
}

// A bound for a place where values above the reference do no harm.
pub trait BoundAbove: Bound {
    ghost above: { Self.Bound.harmless ≡ Above };
}
