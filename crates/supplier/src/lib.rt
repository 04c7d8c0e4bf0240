// A bound that another company supplies, in the places made for ours.
#![tactic(auto)]

ghost use Rattle.std.specs.Prelude.{◌≡◌, true, pos, ◌-ℤ◌, ◌≤ℤ◌, int_le};
ghost use Rattle.bounds.specs.declared.side.Side.TheVariants.{Below};
ghost use Rattle.std.proofs.Common.{rules};

use bounds::bound::{Bound, BoundBelow};
use bounds::line::Line;
use bounds::side::Side;

mod tests;

// A value may stand above its reference by a fixed number of cents, whatever the line.
#[derive(Clone, Copy)]
pub struct Margin {
    pub cents: u32,
}

fn above(value: i32, reference: i32) -> i64
    ensures { result ≡ value -ℤ reference }
{
    i64::from(value) - i64::from(reference)
}

impl Bound for Margin {
    ghost harmless = { Below };

    ghost meaning = { λ m _ r v. int_le (v -ℤ r) (pos m.cents) };

    const SIDE: Side = Side::Below;

    ghost spares = { Prim.search rules };

    fn harmless_side() -> Side {
        Self::SIDE
    }

    fn passes(&self, _line: &Line, reference: i32, value: i32) -> bool {
        above(value, reference) <= i64::from(self.cents)
    }
}

impl BoundBelow for Margin {
    ghost below = { Prim.search rules };
}

// Whether an offer passes, whoever made the bound; one at or below its reference does.
pub fn allows<B: BoundBelow>(bound: &B, line: &Line, reference: i32, offer: i32) -> bool
    ensures meaning { result ≡ B.Bound.meaning bound.now line.now reference offer }
    ensures spares { offer ≤ℤ reference → result ≡ true }
{
    bound.passes(line, reference, offer)
}
