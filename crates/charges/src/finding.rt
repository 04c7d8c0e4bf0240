// All that is found of one product of one resource.
ghost use Rattle.std.specs.Prelude.{◌≡◌, ◌^◌, ◌<◌};
ghost use Rattle.vocabulary.specs.Readings.{own_of, lines_of};
ghost use Rattle.charges.specs.Tables.{owns_of};
ghost use Rattle.charges.specs.Groups.{SharesOf, Small};
ghost use Rattle.charges.specs.Findings.{held_back, overpriced as overpriced_of, charge as charge_of, finding as finding_of};

use crate::charge::{shortage_charge, width_charge};
use crate::group::entity_quantity;
use crate::rules::Rules;
use crate::share::Share;
use bounds::bound::Bound;
use kinds::curve_kind::Curves;
use verdicts::conduct::curve_conduct;
use verdicts::impact::{impact, quantity_impact};
use vocabulary::condition::Condition;
use vocabulary::lines::Lines;
use vocabulary::product::Product;
use vocabulary::resource::Resource;
use vocabulary::verdict::Verdict;

// The verdicts on a product of a resource.
#[derive(Clone, Copy, PartialEq, Eq)]
pub struct Verdicts {
    pub conduct: Verdict,
    pub impact: Verdict,
    pub resource: Verdict,
    pub entity: Verdict,
    pub quantity_impact: Verdict,
}

// Those verdicts, and what is owed by them in twentieths of a cent.
#[derive(Clone, Copy)]
pub struct Finding {
    pub verdicts: Verdicts,
    pub charge: u64,
}

impl Verdicts {
    // Output is held back, and prices show it.
    pub fn held_back(&self) -> bool
        ensures { result ≡ held_back self.now }
    {
        (self.resource.is_failed() || self.entity.is_failed()) && self.quantity_impact.is_failed()
    }

    // Output is priced too high, and prices show it.
    pub fn overpriced(&self) -> bool
        ensures { result ≡ overpriced_of self.now }
    {
        self.conduct.is_failed() && self.impact.is_failed()
    }
}

// What a product owes by its verdicts.
fn charge<C: Bound>(
    curves: &Curves<C>,
    lines: &Lines,
    resource: &Resource,
    product: Product,
    verdicts: &Verdicts,
) -> u64
    ensures value { result ≡ charge_of (C.Bound.meaning curves.now.bound) (lines_of lines.now) (own_of resource.now) product verdicts.now }
    ensures small { result < 2 ^ 60 }
{
    if verdicts.held_back() {
        shortage_charge(resource, product)
    } else if Condition::in_zone(resource.condition(product)) && verdicts.overpriced() {
        width_charge(curves, lines, resource, product)
    } else {
        0
    }
}

impl Finding {
    // What is found of a product of resource i, from the shares of the table.
    pub fn of<R: Rules>(
        rules: &R,
        lines: &Lines,
        table: &[Resource; 32],
        shares: &[Share; 32],
        product: Product,
        i: usize,
    ) -> Finding
        requires index { i < 32 }
        requires made { SharesOf (R.meanings rules.now).quantities (lines_of lines.now) (owns_of table.now) product shares.now }
        requires small { Small shares.now }
        ensures value { result ≡ finding_of (R.meanings rules.now) (lines_of lines.now) (owns_of table.now) product i }
        ensures small { result.charge < 2 ^ 60 }
    {
        let places = rules.places();
        let resource = &table[i];
        let verdicts = Verdicts {
            conduct: curve_conduct(&places.curves, lines, resource, product),
            impact: impact(&places.impact, lines, resource, product),
            resource: shares[i].verdict,
            entity: entity_quantity(&places.quantities, lines, table, shares, product, i),
            quantity_impact: quantity_impact(&places.impact, lines, resource, product),
        };
        Finding {
            verdicts,
            charge: charge(&places.curves, lines, resource, product, &verdicts),
        }
    }
}
