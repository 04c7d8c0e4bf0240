// The slots of the table of an hour.
ghost use Rattle.std.specs.Prelude.{◌≡◌, ◌<◌, ◌≤◌};
ghost use Rattle.std.specs.Option.{option_map};
ghost use Rattle.curves.specs.Rows.{curve_in};
ghost use Rattle.bodies.specs.Bodies.{terms_bytes, standing_bytes, remark_bytes, most_steps as most_of};
ghost use Rattle.bodies.specs.Curves.{curve_bytes};
ghost use Rattle.entries.specs.Entries.{head};
ghost use Rattle.entries.specs.Files.{head_fault};
ghost use Rattle.bodies.specs.Numbers.{word_bytes, number_bytes};
ghost use Rattle.entries.specs.Table.{kinds};
ghost use Rattle.table.specs.Holding.{values_hold, remark_held, holds};
ghost use Rattle.table.specs.Tables.{table_holds};
ghost use Rattle.files.specs.Fillings.{slot_bytes, Sound};
ghost use Rattle.ledger.specs.Slots.{entry_of};

use crate::filled::Filled;
use crate::slots::Slots;
use bodies::steps::most_steps;
use curves::curve::made::end_in;
use curves::row::Row;
use entries::head::Head;
use table::hour::Table;
use vocabulary::lines::Terms;
use vocabulary::resource::{Remark, Resource, Values};
use vocabulary::standing::Standing;

fn line_slot(condition: u8, test: u8, terms: Option<Terms>) -> Option<Filled>
    ensures bytes { slot_bytes result ≡ entry_of (head 1 condition test) (option_map terms_bytes terms) }
    ensures sound { Sound result }
{
    terms.map(|terms| Filled::Line {
        condition,
        test,
        terms,
    })
}

fn standing_slot(resource: u8, standing: Option<Standing>) -> Option<Filled>
    ensures bytes { slot_bytes result ≡ entry_of (head 2 resource 0) (option_map standing_bytes standing) }
    ensures sound { Sound result }
{
    standing.map(|standing| Filled::Standing { resource, standing })
}

// An amount of an offer or a reference, or a price.
pub fn number_slot(head: Head, value: Option<i32>) -> Option<Filled>
    ensures bytes { slot_bytes result ≡ entry_of head (option_map number_bytes value) }
    ensures sound { Sound result }
{
    value.map(|value| Filled::Number { head, value })
}

fn quantity_slot(resource: u8, product: u8, tenths: Option<u32>) -> Option<Filled>
    ensures bytes { slot_bytes result ≡ entry_of (head 5 resource product) (option_map word_bytes tenths) }
    ensures sound { Sound result }
{
    tenths.map(|tenths| Filled::Quantity {
        resource,
        product,
        tenths,
    })
}

// A row that holds no curve is an empty slot.
fn curve_slot(head: Head, row: Row) -> Option<Filled>
    ensures bytes { slot_bytes result ≡ entry_of head (option_map curve_bytes (curve_in (most_of head.sub) row)) }
    ensures sound { Sound result }
{
    end_in(&row, most_steps(head.sub)).map(|_| Filled::Curve { head, row })
}

// The same words, counted no further than there are bytes.
fn counted(remark: Remark) -> Remark
    ensures words { remark_bytes result ≡ remark_bytes remark }
    ensures most { result.count ≤ 120 }
{
    Remark {
        count: remark.count.min(120),
        ..remark
    }
}

// A remark with no words is an empty slot.
fn remark_slot(resource: u8, remark: Remark) -> Option<Filled>
    ensures bytes { slot_bytes result ≡ entry_of (head 7 resource 0) (remark_held remark) }
    ensures sound { Sound result }
{
    if remark.count >= 1 {
        Some(Filled::Remark {
            resource,
            remark: counted(remark),
        })
    } else {
        None
    }
}

// A parameter of an offer, or of a reference.
#[tactic(auto, unfolding(table::specs::Holding::values_hold))]
fn parameter_slot(head: Head, values: &Values) -> Option<Filled>
    requires { head.sub < 8 }
    ensures bytes { slot_bytes result ≡ entry_of head (values_hold values.now head.sub) }
    ensures sound { Sound result }
{
    let parameter = head.sub as usize;
    if parameter < 4 {
        curve_slot(head, values.curves[parameter])
    } else {
        number_slot(head, values.amounts[parameter - 4])
    }
}

// A slot of a resource's record.
#[tactic(auto, unfolding(table::specs::Holding::holds))]
fn record_slot(one: &Resource, head: Head) -> Option<Filled>
    requires kind { 1 < head.kind }
    requires slot { head_fault kinds head ≡ 0 }
    ensures bytes { slot_bytes result ≡ entry_of head (holds one.now head.kind head.sub) }
    ensures sound { Sound result }
{
    let Head { kind, first, sub } = head;
    match kind {
        2 => standing_slot(first, one.standing),
        3 => parameter_slot(head, &one.offer),
        4 => parameter_slot(head, &one.reference),
        5 => quantity_slot(first, sub, one.quantities[sub as usize]),
        6 => number_slot(head, one.prices[sub as usize]),
        _ => remark_slot(first, one.remark),
    }
}

impl Slots for Table {
    ghost holding = { λ t. table_holds t.lines t.resources };

    fn slot(&self, head: Head) -> Option<Filled> {
        let at = head.first as usize;
        match head.kind {
            1 => line_slot(
                head.first,
                head.sub,
                self.lines[10 * at + head.sub as usize],
            ),
            _ => record_slot(&self.resources[at], head),
        }
    }
}
