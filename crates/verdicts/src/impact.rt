// Impact of an offer on prices.
ghost use Rattle.std.specs.Prelude.{◌≡◌};
ghost use Rattle.vocabulary.specs.Readings.{own_of, lines_of};
ghost use Rattle.verdicts.specs.Rules.{impact as impact_of, quantity_impact as quantity_impact_of};

use bounds::bound::Bound;
use kinds::amounts::Amounts;
use kinds::judged::judged;
use vocabulary::condition::Condition;
use vocabulary::lines::{Lines, line};
use vocabulary::product::Product;
use vocabulary::resource::Resource;
use vocabulary::run::Run;
use vocabulary::verdict::Verdict;

// The as-offered price against the price at reference levels.
pub fn impact<I: Bound>(
    impact: &Amounts<I>,
    lines: &Lines,
    resource: &Resource,
    product: Product,
) -> Verdict
    ensures { result ≡ impact_of (I.Bound.meaning impact.now.bound) (lines_of lines.now) (own_of resource.now) product }
{
    let line = line(lines, resource.condition(product), product.impact_test());
    judged(
        impact,
        line,
        resource.price(product, Run::ReferenceLevel),
        resource.price(product, Run::AsOffered),
    )
}

// The as-offered price against the price at reference quantities; not tested in an intertie zone.
pub fn quantity_impact<I: Bound>(
    impact: &Amounts<I>,
    lines: &Lines,
    resource: &Resource,
    product: Product,
) -> Verdict
    ensures { result ≡ quantity_impact_of (I.Bound.meaning impact.now.bound) (lines_of lines.now) (own_of resource.now) product }
{
    let condition = Condition::outside_zones(resource.condition(product));
    let line = line(lines, condition, product.impact_test());
    judged(
        impact,
        line,
        resource.price(product, Run::ReferenceQuantity),
        resource.price(product, Run::AsOffered),
    )
}
