// The rules that offers are held to.
ghost use Rattle.std.specs.Prelude.{◌≡◌};
ghost use Rattle.charges.specs.Findings.{Meanings, meant_by};
ghost use Rattle.charges.specs.Lawful.{Lawful, lawful};

use bounds::bound::{BoundAbove, BoundBelow};
use verdicts::places::Places;

// A bound in each of the four places, whatever their types.
pub trait Rules {
    type Curves: BoundBelow;

    type Amounts: BoundBelow;

    type Impact: BoundBelow;

    type Quantities: BoundAbove;

    // what the bounds let pass
    ghost meanings: { Self → Meanings };

    fn places(&self) -> &Places<Self::Curves, Self::Amounts, Self::Impact, Self::Quantities>
        ensures { meant_by Self.Curves.Bound.meaning Self.Amounts.Bound.meaning Self.Impact.Bound.meaning Self.Quantities.Bound.meaning result.now ≡ meanings self.now };

    // a value equal to its reference passes
    ghost lawful: { (r : Self) → Lawful (meanings r) };
}

impl<C: BoundBelow, A: BoundBelow, I: BoundBelow, Q: BoundAbove> Rules for Places<C, A, I, Q> {
    type Curves = C;

    type Amounts = A;

    type Impact = I;

    type Quantities = Q;

    ghost meanings = { meant_by C.Bound.meaning A.Bound.meaning I.Bound.meaning Q.Bound.meaning };

    ghost lawful = { lawful C.Bound.meaning A.Bound.meaning I.Bound.meaning Q.Bound.meaning C.Bound.harmless A.Bound.harmless Q.Bound.harmless C.Bound.spares A.Bound.spares Q.Bound.spares };

    fn places(&self) -> &Places<C, A, I, Q> {
        self
    }
}
