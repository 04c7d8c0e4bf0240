// Quantities that a resource offers, against its reference quantities.
ghost use Rattle.std.specs.Prelude.{◌≡◌, ◌≤◌, pos, IfSome, Some};
ghost use Rattle.std.specs.Option.{option_map};
ghost use Rattle.kinds.specs.Judged.{judged as judged_of};
ghost use Rattle.vocabulary.specs.declared.test.Test.TheVariants.{ResourceQuantity};
ghost use Rattle.vocabulary.specs.Conditions.{condition_in_force, outside_zones};
ghost use Rattle.vocabulary.specs.Readings.{own_of, lines_of, line_under};
ghost use Rattle.verdicts.specs.Rules.{offered as offered_of, resource_quantity as resource_quantity_of};

use bounds::bound::Bound;
use bounds::line::Line;
use curves::curve::made::end_in;
use kinds::amounts::Amounts;
use kinds::judged::judged;
use vocabulary::condition::Condition;
use vocabulary::lines::{Lines, line};
use vocabulary::product::Product;
use vocabulary::resource::Resource;
use vocabulary::test::Test;
use vocabulary::verdict::Verdict;

// Where the product's offer ends; 0 without one.
pub fn offered(resource: &Resource, product: Product) -> u32
    ensures value { result ≡ offered_of (own_of resource.now) product }
    ensures small { result ≤ 100000 }
{
    let row = &resource.offer.curves[product.number()];
    end_in(row, product.most_steps()).unwrap_or(0)
}

// The verdict on a quantity against its reference, sums of quantities too.
pub fn judged_quantity<Q: Bound>(
    quantities: &Amounts<Q>,
    line: Option<Line>,
    reference: Option<u32>,
    value: u32,
) -> Verdict
    requires reference { IfSome reference (λ q. q ≤ 3200000) }
    requires value { value ≤ 3200000 }
    ensures { result ≡ judged_of (Q.Bound.meaning quantities.now.bound) line (option_map pos reference) (Some (pos value)) }
{
    let reference = reference.map(|tenths| tenths as i32);
    judged(quantities, line, reference, Some(value as i32))
}

// The verdict on a quantity that a resource offers; not tested in an intertie zone.
pub fn judged_offer<Q: Bound>(
    quantities: &Amounts<Q>,
    lines: &Lines,
    resource: &Resource,
    product: Product,
    value: u32,
) -> Verdict
    requires { value ≤ 100000 }
    ensures { result ≡ judged_of (Q.Bound.meaning quantities.now.bound) (line_under (lines_of lines.now) (outside_zones (condition_in_force (own_of resource.now) product)) ResourceQuantity) (option_map pos ((own_of resource.now).quantity product)) (Some (pos value)) }
{
    let condition = Condition::outside_zones(resource.condition(product));
    let line = line(lines, condition, Test::ResourceQuantity);
    judged_quantity(quantities, line, resource.quantity(product), value)
}

// The resource quantity verdict; not tested in an intertie zone.
pub fn resource_quantity<Q: Bound>(
    quantities: &Amounts<Q>,
    lines: &Lines,
    resource: &Resource,
    product: Product,
) -> Verdict
    ensures { result ≡ resource_quantity_of (Q.Bound.meaning quantities.now.bound) (lines_of lines.now) (own_of resource.now) product }
{
    judged_offer(
        quantities,
        lines,
        resource,
        product,
        offered(resource, product),
    )
}
