// Charges, in twentieths of a cent.
ghost use Rattle.std.specs.Prelude.{◌≡◌, ◌*◌, ◌^◌, ◌<◌, ◌≤◌};
ghost use Rattle.std.specs.Option.{option_map};
ghost use Rattle.curves.specs.Curves.{steps_of};
ghost use Rattle.vocabulary.specs.Readings.{own_of, lines_of};
ghost use Rattle.charges.specs.Charges.{paid as paid_of, shortage_charge as shortage_charge_of, widths as widths_of, width_charge as width_charge_of};

use crate::share::known;
use bounds::bound::Bound;
use bounds::line::Line;
use curves::curve::Curve;
use kinds::curve_kind::Curves;
use verdicts::quantity::offered;
use vocabulary::lines::{Lines, line};
use vocabulary::product::Product;
use vocabulary::resource::Resource;
use vocabulary::run::Run;

// A price that is missing or negative counts as 0.
fn paid(price: Option<i32>) -> u32
    ensures { result ≡ paid_of price }
{
    price.map_or(0, |cents| cents.max(0) as u32)
}

fn charged(factor: u32, quantity: u32, price: u32) -> u64
    requires factor { factor ≤ 765 }
    requires quantity { quantity ≤ 100000 }
    ensures value { result ≡ factor * quantity * price }
    ensures small { result < 2 ^ 60 }
{
    u64::from(factor) * u64::from(quantity) * u64::from(price)
}

// The charge on what is offered short of the reference quantity.
pub fn shortage_charge(resource: &Resource, product: Product) -> u64
    ensures value { result ≡ shortage_charge_of (own_of resource.now) product }
    ensures small { result < 2 ^ 60 }
{
    let shortage = known(resource.quantity(product)).saturating_sub(offered(resource, product));
    charged(
        3 * u32::from(resource.multiplier()),
        shortage,
        paid(resource.price(product, Run::AsOffered)),
    )
}

// The widths of an offer's steps that fail; 0 where there is nothing to test.
fn widths<C: Bound>(
    curves: &Curves<C>,
    line: Option<Line>,
    reference: Option<Curve>,
    offer: Option<Curve>,
) -> u32
    ensures value { result ≡ widths_of (C.Bound.meaning curves.now.bound) line (option_map steps_of reference) (option_map steps_of offer) }
    ensures small { result ≤ 100000 }
{
    match (line, reference, offer) {
        (Some(line), Some(reference), Some(offer)) => {
            curves.failed_widths(&line, &reference, &offer)
        }
        _ => 0,
    }
}

// The charge on the steps of an offer that fail.
pub fn width_charge<C: Bound>(
    curves: &Curves<C>,
    lines: &Lines,
    resource: &Resource,
    product: Product,
) -> u64
    ensures value { result ≡ width_charge_of (C.Bound.meaning curves.now.bound) (lines_of lines.now) (own_of resource.now) product }
    ensures small { result < 2 ^ 60 }
{
    let line = line(lines, resource.condition(product), product.curve_test());
    let widths = widths(
        curves,
        line,
        resource.reference.curve(product),
        resource.offer.curve(product),
    );
    charged(2, widths, paid(resource.price(product, Run::AsOffered)))
}
