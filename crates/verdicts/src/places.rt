// The four places for bounds.
ghost use Rattle.std.specs.Prelude.{◌≡◌};

use bounds::bound::{BoundAbove, BoundBelow};
use bounds::ceiling::Ceiling;
use bounds::exemption::Exemption;
use bounds::shortfall::Shortfall;
use kinds::amounts::Amounts;
use kinds::curve_kind::Curves;

// Curves, amounts and impact take bounds harmless below; ramp rates and quantities one harmless above.
#[derive(Clone, Copy)]
pub struct Places<C, A, I, Q> {
    pub curves: Curves<C>,
    pub amounts: Amounts<A>,
    pub impact: Amounts<I>,
    pub quantities: Amounts<Q>,
}

impl<C: BoundBelow, A: BoundBelow, I: BoundBelow, Q: BoundAbove> Places<C, A, I, Q> {
    pub fn new(curves: C, amounts: A, impact: I, quantities: Q) -> Places<C, A, I, Q>
        ensures curves { result.curves.bound ≡ curves }
        ensures amounts { result.amounts.bound ≡ amounts }
        ensures impact { result.impact.bound ≡ impact }
        ensures quantities { result.quantities.bound ≡ quantities }
    {
        Places {
            curves: Curves { bound: curves },
            amounts: Amounts { bound: amounts },
            impact: Amounts { bound: impact },
            quantities: Amounts { bound: quantities },
        }
    }
}

// The bounds of the market's rules.
pub type Standard = Places<Exemption<Ceiling>, Ceiling, Ceiling, Shortfall>;

pub fn standard() -> Standard {
    Places::new(Exemption { under: Ceiling }, Ceiling, Ceiling, Shortfall)
}
