// The shortfall: a value may stand below its reference by the headroom.
ghost use Rattle.std.specs.Prelude.{◌≡◌};
ghost use Rattle.bounds.specs.declared.side.Side.TheVariants.{Above};
ghost use Rattle.bounds.specs.Meanings.{shortfall_passes};
ghost use Rattle.std.proofs.Common.{rules};

use crate::bound::{Bound, BoundAbove};
use crate::headroom::{excess, headroom};
use crate::line::Line;
use crate::side::Side;

#[derive(Clone, Copy)]
pub struct Shortfall;

impl Bound for Shortfall {
    ghost harmless = { Above };

    ghost meaning = { λ _. shortfall_passes };

    const SIDE: Side = Side::Above;

    ghost spares = { Prim.search rules };

    fn harmless_side() -> Side {
        Self::SIDE
    }

    fn passes(&self, line: &Line, reference: i32, value: i32) -> bool {
        excess(reference, value) <= headroom(line, reference)
    }
}

impl BoundAbove for Shortfall {
    ghost above = { Prim.search rules };
}
