// The exemption: a layer over any bound that lets small values pass.
ghost use Rattle.std.specs.Prelude.{◌≡◌};
ghost use Rattle.bounds.specs.Meanings.{exempt_passes};
ghost use Rattle.std.proofs.Common.{rules};

use crate::bound::{Bound, BoundAbove, BoundBelow};
use crate::line::Line;
use crate::side::Side;

#[derive(Clone, Copy)]
pub struct Exemption<B> {
    pub under: B,
}

impl<B: Bound> Bound for Exemption<B> {
    ghost harmless = { B.Bound.harmless };

    ghost meaning = { λ e. exempt_passes (B.Bound.meaning e.under) };

    const SIDE: Side = B::SIDE;

    ghost spares = { Prim.search rules };

    fn harmless_side() -> Side {
        B::harmless_side()
    }

    fn passes(&self, line: &Line, reference: i32, value: i32) -> bool {
        value < line.floor || self.under.passes(line, reference, value)
    }
}

impl<B: BoundBelow> BoundBelow for Exemption<B> {
    ghost below = { Prim.search rules };
}

impl<B: BoundAbove> BoundAbove for Exemption<B> {
    ghost above = { Prim.search rules };
}
