// Whether steps stand in the order of a curve.
ghost use Rattle.std.specs.Prelude.{◌≡◌};
ghost use Rattle.curves.specs.Steps.{rises, in_order as in_order_of};

use crate::step::Step;

// Whether the next step ends beyond the last, at no lower price.
pub fn rises_to(last: &Step, next: &Step) -> bool
    ensures { result ≡ rises last.now next.now }
{
    last.end < next.end && last.price <= next.price
}

// Whether ends rise and prices never fall.
pub fn in_order(steps: &[Step]) -> bool
    ensures { result ≡ in_order_of steps.now }
{
    steps.is_sorted_by(rises_to)
}
