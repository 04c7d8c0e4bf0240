// Conduct of a parameter against its reference level.
ghost use Rattle.std.specs.Prelude.{◌≡◌};
ghost use Rattle.vocabulary.specs.Readings.{own_of, lines_of};
ghost use Rattle.verdicts.specs.Rules.{curve_conduct as curve_conduct_of, amount_conduct as amount_conduct_of};

use bounds::bound::Bound;
use kinds::amounts::Amounts;
use kinds::curve_kind::Curves;
use kinds::judged::judged;
use vocabulary::amount::Amount;
use vocabulary::lines::{Lines, line};
use vocabulary::product::Product;
use vocabulary::resource::Resource;
use vocabulary::verdict::Verdict;

// The conduct of a product's offer curve.
pub fn curve_conduct<C: Bound>(
    curves: &Curves<C>,
    lines: &Lines,
    resource: &Resource,
    product: Product,
) -> Verdict
    ensures { result ≡ curve_conduct_of (C.Bound.meaning curves.now.bound) (lines_of lines.now) (own_of resource.now) product }
{
    let line = line(lines, resource.condition(product), product.curve_test());
    judged(
        curves,
        line,
        resource.reference.curve(product),
        resource.offer.curve(product),
    )
}

// The conduct of an amount of the energy offer; a ramp rate does harm by being low.
pub fn amount_conduct<A: Bound, Q: Bound>(
    amounts: &Amounts<A>,
    quantities: &Amounts<Q>,
    lines: &Lines,
    resource: &Resource,
    amount: Amount,
) -> Verdict
    ensures { result ≡ amount_conduct_of (A.Bound.meaning amounts.now.bound) (Q.Bound.meaning quantities.now.bound) (lines_of lines.now) (own_of resource.now) amount }
{
    let line = line(lines, resource.condition(Product::Energy), amount.test());
    let reference = resource.reference.amount(amount);
    let offer = resource.offer.amount(amount);
    match amount {
        Amount::RampRate => judged(quantities, line, reference, offer),
        _ => judged(amounts, line, reference, offer),
    }
}
