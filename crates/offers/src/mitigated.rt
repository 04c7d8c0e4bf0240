// A table's slots, each offer as the rules leave it.
ghost use Rattle.std.specs.Prelude.{◌≡◌, ◌<◌};
ghost use Rattle.std.specs.Option.{option_map};
ghost use Rattle.curves.specs.Curves.{steps_of};
ghost use Rattle.vocabulary.specs.Orders.{parameter_at};
ghost use Rattle.vocabulary.specs.Readings.{lines_of, own_of};
ghost use Rattle.bodies.specs.Curves.{curve_bytes};
ghost use Rattle.ledger.specs.Mitigation.{mitigated_bytes};
ghost use Rattle.ledger.specs.Slots.{entry_of};
ghost use Rattle.files.specs.Fillings.{slot_bytes, Sound};
ghost use Rattle.offers.specs.Rows.{mitigated_rows};

use charges::rules::Rules;
use curves::curve::Curve;
use entries::head::Head;
use files::filled::Filled;
use files::hour::number_slot;
use files::slots::Slots;
use table::hour::Table;
use verdicts::mitigation::{mitigated_amount, mitigated_curve};
use vocabulary::lines::Lines;
use vocabulary::parameter::Parameter;
use vocabulary::resource::Resource;

// The table, and the bounds that its offers are held to.
#[derive(Clone, Copy)]
pub struct Mitigated<'a, R> {
    pub table: &'a Table,
    pub rules: &'a R,
}

// A curve of an offer.
fn curve_slot(head: Head, curve: Option<Curve>) -> Option<Filled>
    ensures bytes { slot_bytes result ≡ entry_of head (option_map curve_bytes (option_map steps_of curve)) }
    ensures sound { Sound result }
{
    curve.map(|curve| Filled::Curve {
        head,
        row: curve.row(),
    })
}

// A parameter of a resource's offer, as the rules leave it.
fn offer_slot<R: Rules>(rules: &R, lines: &Lines, one: &Resource, head: Head) -> Option<Filled>
    requires { head.sub < 8 }
    ensures bytes { slot_bytes result ≡ entry_of head (mitigated_bytes (R.meanings rules.now) (lines_of lines.now) (own_of one.now) (parameter_at head.sub)) }
    ensures sound { Sound result }
{
    let places = rules.places();
    match Parameter::at(head.sub) {
        Parameter::Curve(product) => curve_slot(
            head,
            mitigated_curve(&places.curves, &places.impact, lines, one, product),
        ),
        Parameter::Amount(amount) => number_slot(
            head,
            mitigated_amount(
                &places.amounts,
                &places.impact,
                &places.quantities,
                lines,
                one,
                amount,
            ),
        ),
    }
}

impl<'a, R: Rules> Slots for Mitigated<'a, R> {
    ghost holding = { λ s. mitigated_rows (R.meanings s.rules.now) s.table.now };

    fn slot(&self, head: Head) -> Option<Filled> {
        match head.kind {
            3 => offer_slot(
                self.rules,
                &self.table.lines,
                &self.table.resources[head.first as usize],
                head,
            ),
            _ => self.table.slot(head),
        }
    }
}
