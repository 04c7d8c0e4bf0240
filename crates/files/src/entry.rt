// The entry of a slot: its length, and its bytes at the front of what is lent.
ghost use Rattle.std.specs.Prelude.{◌≡◌, ◌≤◌, length};
ghost use Rattle.curves.specs.Rows.{row_steps};
ghost use Rattle.bodies.specs.Bodies.{remark_bytes};
ghost use Rattle.bodies.specs.Curves.{curve_bytes};
ghost use Rattle.writers.specs.Buffers.{onto};
ghost use Rattle.files.specs.Fillings.{slot_bytes, Sound};

use crate::filled::Filled;
use curves::row::Row;
use vocabulary::resource::Remark;
use writers::entry::{
    write_curve, write_line, write_number, write_quantity, write_remark, write_standing,
};

fn steps_length(row: Row) -> usize
    requires { row.count ≤ 20 }
    ensures len { result ≡ length (curve_bytes (row_steps row)) }
    ensures most { result ≤ 160 }
{
    8 * row.count
}

fn words_length(remark: Remark) -> usize
    requires { remark.count ≤ 120 }
    ensures len { result ≡ length (remark_bytes remark) }
    ensures most { result ≤ 120 }
{
    remark.count
}

// How many bytes the entry of a slot takes.
#[tactic(auto, unfolding(bodies::specs::Numbers::word_bytes))]
pub fn slot_length(slot: Option<Filled>) -> usize
    requires { Sound slot }
    ensures len { result ≡ length (slot_bytes slot) }
    ensures most { result ≤ 165 }
{
    let Some(filled) = slot else {
        return 0;
    };
    match filled {
        Filled::Line { .. } => 17,
        Filled::Standing { .. } => 11,
        Filled::Curve { row, .. } => 5 + steps_length(row),
        Filled::Number { .. } => 9,
        Filled::Quantity { .. } => 9,
        Filled::Remark { remark, .. } => 5 + words_length(remark),
    }
}

// Writes the entry of a slot, if it is full, and says how many bytes it took.
#[tactic(auto, unfolding(bodies::specs::Numbers::word_bytes))]
pub fn write_slot(slot: Option<Filled>, out: &mut [u8]) -> usize
    requires sound { Sound slot }
    requires room { length (slot_bytes slot) ≤ length out.old }
    ensures len { result ≡ length (slot_bytes slot) }
    ensures bytes { out.new ≡ onto (slot_bytes slot) out.old }
{
    let Some(filled) = slot else {
        return 0;
    };
    match filled {
        Filled::Line {
            condition,
            test,
            terms,
        } => write_line(out, condition, test, &terms),
        Filled::Standing { resource, standing } => write_standing(out, resource, &standing),
        Filled::Curve { head, row } => write_curve(out, head, &row),
        Filled::Number { head, value } => write_number(out, head, value),
        Filled::Quantity {
            resource,
            product,
            tenths,
        } => write_quantity(out, resource, product, tenths),
        Filled::Remark { resource, remark } => write_remark(out, resource, &remark),
    }
}
