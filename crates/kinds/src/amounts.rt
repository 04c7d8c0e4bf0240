// Amounts: one number, asked of the bound that the kind holds.
ghost use Rattle.std.specs.Prelude.{◌≡◌, ℤ};
ghost use Rattle.std.proofs.Common.{rules};

use crate::kind::Kind;
use bounds::bound::Bound;
use bounds::line::Line;

#[derive(Clone, Copy)]
pub struct Amounts<B> {
    pub bound: B,
}

impl<B: Bound> Kind for Amounts<B> {
    type Value = i32;

    ghost Content = { ℤ };

    ghost content = { λ v. v };

    ghost test = { λ k. B.Bound.meaning k.bound };

    ghost substitute = { λ _ r _. r };

    ghost settled = { Prim.search rules };

    ghost steady = { Prim.search rules };

    fn passes(&self, line: &Line, reference: &i32, offer: &i32) -> bool {
        self.bound.passes(line, *reference, *offer)
    }

    fn replace(&self, reference: &i32, _offer: &i32) -> i32 {
        *reference
    }
}
