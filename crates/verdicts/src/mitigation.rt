// What a resource's offer becomes. A mitigated value differs from the offer exactly where conduct and impact fail.
ghost use Rattle.std.specs.Prelude.{◌≡◌};
ghost use Rattle.std.specs.Option.{option_map};
ghost use Rattle.curves.specs.Curves.{steps_of};
ghost use Rattle.kinds.specs.Judged.{DifferWhen};
ghost use Rattle.vocabulary.specs.Readings.{own_of, lines_of};
ghost use Rattle.verdicts.specs.Mitigation.{replaceable as replaceable_of, curve_substituted, amount_substituted, mitigated_curve as mitigated_curve_of, mitigated_amount as mitigated_amount_of};

use crate::impact::impact;
use bounds::bound::Bound;
use curves::curve::Curve;
use kinds::amounts::Amounts;
use kinds::curve_kind::Curves;
use kinds::mitigated::mitigated;
use vocabulary::amount::Amount;
use vocabulary::condition::Condition;
use vocabulary::lines::{Lines, line};
use vocabulary::product::Product;
use vocabulary::resource::Resource;

// Whether a product's parameters may be replaced: its impact fails, and not in an intertie zone.
pub fn replaceable<I: Bound>(
    impact_bound: &Amounts<I>,
    lines: &Lines,
    resource: &Resource,
    product: Product,
) -> bool
    ensures { result ≡ replaceable_of (I.Bound.meaning impact_bound.now.bound) (lines_of lines.now) (own_of resource.now) product }
{
    Condition::outside_zones(resource.condition(product)).is_some()
        && impact(impact_bound, lines, resource, product).is_failed()
}

pub fn mitigated_curve<C: Bound, I: Bound>(
    curves: &Curves<C>,
    impact: &Amounts<I>,
    lines: &Lines,
    resource: &Resource,
    product: Product,
) -> Option<Curve>
    ensures value { option_map steps_of result ≡ mitigated_curve_of (C.Bound.meaning curves.now.bound) (I.Bound.meaning impact.now.bound) (lines_of lines.now) (own_of resource.now) product }
    ensures differs { DifferWhen (curve_substituted (C.Bound.meaning curves.now.bound) (I.Bound.meaning impact.now.bound) (lines_of lines.now) (own_of resource.now) product) (option_map steps_of result) ((own_of resource.now).offer.curve product) }
{
    let offer = resource.offer.curve(product);
    if !replaceable(impact, lines, resource, product) {
        return offer;
    }
    let line = line(lines, resource.condition(product), product.curve_test());
    mitigated(curves, line, true, resource.reference.curve(product), offer)
}

pub fn mitigated_amount<A: Bound, I: Bound, Q: Bound>(
    amounts: &Amounts<A>,
    impact: &Amounts<I>,
    quantities: &Amounts<Q>,
    lines: &Lines,
    resource: &Resource,
    amount: Amount,
) -> Option<i32>
    ensures value { result ≡ mitigated_amount_of (A.Bound.meaning amounts.now.bound) (I.Bound.meaning impact.now.bound) (Q.Bound.meaning quantities.now.bound) (lines_of lines.now) (own_of resource.now) amount }
    ensures differs { DifferWhen (amount_substituted (A.Bound.meaning amounts.now.bound) (I.Bound.meaning impact.now.bound) (Q.Bound.meaning quantities.now.bound) (lines_of lines.now) (own_of resource.now) amount) result ((own_of resource.now).offer.amount amount) }
{
    let line = line(lines, resource.condition(Product::Energy), amount.test());
    let replaceable = replaceable(impact, lines, resource, Product::Energy);
    let reference = resource.reference.amount(amount);
    let offer = resource.offer.amount(amount);
    match amount {
        Amount::RampRate => mitigated(quantities, line, replaceable, reference, offer),
        Amount::StartUp | Amount::SpeedNoLoad | Amount::RunTime => mitigated(
            amounts,
            line,
            replaceable,
            reference,
            offer,
        ),
    }
}
