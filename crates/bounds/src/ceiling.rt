// The ceiling: a value may stand above its reference by the headroom.
ghost use Rattle.std.specs.Prelude.{◌≡◌};
ghost use Rattle.bounds.specs.declared.side.Side.TheVariants.{Below};
ghost use Rattle.bounds.specs.Meanings.{ceiling_passes};
ghost use Rattle.std.proofs.Common.{rules};

use crate::bound::{Bound, BoundBelow};
use crate::headroom::{excess, headroom};
use crate::line::Line;
use crate::side::Side;

#[derive(Clone, Copy)]
pub struct Ceiling;

impl Bound for Ceiling {
    ghost harmless = { Below };

    ghost meaning = { λ _. ceiling_passes };

    const SIDE: Side = Side::Below;

    ghost spares = { Prim.search rules };

    fn harmless_side() -> Side {
        Self::SIDE
    }

    fn passes(&self, line: &Line, reference: i32, value: i32) -> bool {
        excess(value, reference) <= headroom(line, reference)
    }
}

impl BoundBelow for Ceiling {
    ghost below = { Prim.search rules };
}
