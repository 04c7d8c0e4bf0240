// One resource's record takes what an entry says into a slot, or gives it up.
ghost use Rattle.std.specs.Prelude.{◌≡◌, ◌<◌, ◌≢◌, true, is_some, Some, None};
ghost use Rattle.bodies.specs.Bodies.{parameter_fault};
ghost use Rattle.entries.specs.Entries.{raw_of};
ghost use Rattle.entries.specs.Files.{head_fault, body_fault};
ghost use Rattle.entries.specs.Table.{kinds};
ghost use Rattle.table.specs.Holding.{values_hold, remark_held, holds, ValuesChanged, Changed};
ghost use Rattle.table.specs.Ranges.{values_ranged, ranged};

use bodies::amounts::{read_amount, read_price, read_quantity};
use bodies::remarks::read_remark;
use bodies::standings::read_standing;
use bodies::steps::{most_steps, read_curve};
use curves::curve::Curve;
use curves::row::Row;
use entries::entry::Entry;
use entries::head::Head;
use vocabulary::resource::{Remark, Resource, Values};

// A parameter of an offer, or of a reference.
fn take_parameter(values: &mut Values, parameter: u8, body: &[u8])
    requires parameter { parameter < 8 }
    requires fault { parameter_fault parameter body.now ≡ 0 }
    ensures changed { ValuesChanged values.old values.new parameter (Some body.now) }
    ensures kept { values_ranged values.old ≡ true → values_ranged values.new ≡ true }
{
    let at = parameter as usize;
    if parameter < 4 {
        if let Ok(row) = read_curve(parameter, body) {
            values.curves[at] = row;
        }
    } else if let Ok(amount) = read_amount(parameter, body) {
        values.amounts[at - 4] = Some(amount);
    }
}

// Stores what an entry without a fault says of a resource.
pub fn take(resource: &mut Resource, entry: Entry)
    requires kind { (raw_of entry).head.kind ≢ 1 }
    requires slot { head_fault kinds (raw_of entry).head ≡ 0 }
    requires fault { body_fault kinds (raw_of entry).head (raw_of entry).body ≡ 0 }
    ensures changed { Changed resource.old resource.new (raw_of entry.entry).head.kind (raw_of entry.entry).head.sub (Some (raw_of entry.entry).body) }
    ensures kept { ranged resource.old ≡ true → ranged resource.new ≡ true }
{
    match entry {
        Entry::Line { .. } => {}
        Entry::Standing { body, .. } => {
            if let Ok(standing) = read_standing(body) {
                resource.standing = Some(standing);
            }
        }
        Entry::Offer {
            parameter,
            body,
            ..
        } => take_parameter(&mut resource.offer, parameter, body),
        Entry::Reference {
            parameter,
            body,
            ..
        } => take_parameter(&mut resource.reference, parameter, body),
        Entry::Quantity { product, body, .. } => {
            if let Ok(quantity) = read_quantity(body) {
                resource.quantities[product as usize] = Some(quantity);
            }
        }
        Entry::Price { run, body, .. } => {
            if let Ok(price) = read_price(body) {
                resource.prices[run as usize] = Some(price);
            }
        }
        Entry::Remark { body, .. } => {
            if let Ok(remark) = read_remark(body) {
                resource.remark = remark;
            }
        }
    }
}

fn clear_parameter(values: &mut Values, parameter: u8) -> bool
    requires { parameter < 8 }
    ensures changed { ValuesChanged values.old values.new parameter None }
    ensures was { result ≡ is_some (values_hold values.old parameter) }
    ensures kept { values_ranged values.old ≡ true → values_ranged values.new ≡ true }
{
    let at = parameter as usize;
    if parameter < 4 {
        let row = std::mem::replace(&mut values.curves[at], Row::empty());
        Curve::of_row(row, most_steps(parameter)).is_some()
    } else {
        values.amounts[at - 4].take().is_some()
    }
}

fn has_words(remark: Remark) -> bool
    ensures { result ≡ is_some (remark_held remark) }
{
    remark.count >= 1
}

// Leaves the slot that a head names empty, and says whether it was full.
pub fn clear(resource: &mut Resource, head: Head) -> bool
    requires kind { head.kind ≢ 1 }
    requires slot { head_fault kinds head ≡ 0 }
    ensures changed { Changed resource.old resource.new head.kind head.sub None }
    ensures was { result ≡ is_some (holds resource.old head.kind head.sub) }
    ensures kept { ranged resource.old ≡ true → ranged resource.new ≡ true }
{
    let at = head.sub as usize;
    match head.kind {
        2 => resource.standing.take().is_some(),
        3 => clear_parameter(&mut resource.offer, head.sub),
        4 => clear_parameter(&mut resource.reference, head.sub),
        5 => resource.quantities[at].take().is_some(),
        6 => resource.prices[at].take().is_some(),
        _ => {
            let remark = resource.remark;
            resource.remark = Remark {
                bytes: [0; 120],
                count: 0,
            };
            has_words(remark)
        },
    }
}
