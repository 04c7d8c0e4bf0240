// Entries written kind by kind; each says how many bytes it took. What stands in the buffer then reads back.
ghost use Rattle.std.specs.Prelude.{◌≡◌, ◌+◌, ◌*◌, ◌≤◌, length};
ghost use Rattle.curves.specs.Rows.{row_steps};
ghost use Rattle.bodies.specs.Bodies.{terms_bytes, standing_bytes as bytes_of_standing, remark_bytes, remark_fault};
ghost use Rattle.bodies.specs.Curves.{curve_bytes};
ghost use Rattle.entries.specs.Entries.{head};
ghost use Rattle.entries.specs.Files.{entry_bytes, body_of};
ghost use Rattle.bodies.specs.Numbers.{word_bytes as bytes_of_word, number_bytes as bytes_of_number};
ghost use Rattle.writers.specs.Backs.{LineBack, StandingBack, NumberBack, QuantityBack, CurveBack};
ghost use Rattle.writers.specs.Buffers.{onto};
ghost use Rattle.writers.specs.Reads.{LineReads, StandingReads, NumberReads, QuantityReads, CurveReads};

use crate::body::{line_bytes, standing_bytes, step_bytes};
use crate::bytes::{write_bytes, write_entry, write_head};
use bodies::numbers::{number_bytes, word_bytes};
use curves::row::Row;
use entries::head::Head;
use vocabulary::lines::Terms;
use vocabulary::resource::Remark;
use vocabulary::standing::Standing;

pub fn write_line(out: &mut [u8], condition: u8, test: u8, terms: &Terms) -> usize
    requires { 17 ≤ length out.old }
    ensures len { result ≡ 17 }
    ensures bytes { out.new ≡ onto (entry_bytes (head 1 condition test) (terms_bytes terms.now)) out.old }
    ensures back { LineBack test terms.now }
    ensures reads { LineReads test terms.now (body_of out.new) }
{
    let head = Head {
        kind: 1,
        first: condition,
        sub: test,
    };
    write_entry(out, head, &line_bytes(terms))
}

pub fn write_standing(out: &mut [u8], resource: u8, standing: &Standing) -> usize
    requires { 11 ≤ length out.old }
    ensures len { result ≡ 11 }
    ensures bytes { out.new ≡ onto (entry_bytes (head 2 resource 0) (bytes_of_standing standing.now)) out.old }
    ensures back { StandingBack standing.now }
    ensures reads { StandingReads standing.now (body_of out.new) }
{
    let head = Head {
        kind: 2,
        first: resource,
        sub: 0,
    };
    write_entry(out, head, &standing_bytes(standing))
}

// An amount of an offer or a reference, or a price.
pub fn write_number(out: &mut [u8], head: Head, value: i32) -> usize
    requires { 9 ≤ length out.old }
    ensures len { result ≡ 9 }
    ensures bytes { out.new ≡ onto (entry_bytes head (bytes_of_number value)) out.old }
    ensures back { NumberBack value }
    ensures reads { NumberReads value (body_of out.new) }
{
    write_entry(out, head, &number_bytes(value))
}

pub fn write_quantity(out: &mut [u8], resource: u8, product: u8, tenths: u32) -> usize
    requires { 9 ≤ length out.old }
    ensures len { result ≡ 9 }
    ensures bytes { out.new ≡ onto (entry_bytes (head 5 resource product) (bytes_of_word tenths)) out.old }
    ensures back { QuantityBack tenths }
    ensures reads { QuantityReads tenths (body_of out.new) }
{
    let head = Head {
        kind: 5,
        first: resource,
        sub: product,
    };
    write_entry(out, head, &word_bytes(tenths))
}

pub fn write_remark(out: &mut [u8], resource: u8, remark: &Remark) -> usize
    requires { (remark.now.count ≤ 120) × (5 + remark.now.count ≤ length out.old) }
    ensures len { result ≡ 5 + remark.now.count }
    ensures bytes { out.new ≡ onto (entry_bytes (head 7 resource 0) (remark_bytes remark.now)) out.old }
    ensures back { 1 ≤ remark.now.count → remark_fault (remark_bytes remark.now) ≡ 0 }
    ensures reads { 1 ≤ remark.now.count → remark_fault (body_of out.new) ≡ 0 }
{
    let head = Head {
        kind: 7,
        first: resource,
        sub: 0,
    };
    write_entry(out, head, &remark.bytes[0..remark.count])
}

fn write_steps(out: &mut [u8], row: Row) -> usize
    requires { (row.count ≤ 20) × (8 * row.count ≤ length out.old) }
    ensures len { result ≡ 8 * row.count }
    ensures whole { result ≡ length (curve_bytes (row_steps row)) }
    ensures bytes { out.new ≡ onto (curve_bytes (row_steps row)) out.old }
{
    let mut at = 0;
    for step in &row.steps[..row.count] {
        at += write_bytes(&mut out[at..], &step_bytes(*step));
    }
    at
}

// A curve of an offer or a reference.
pub fn write_curve(out: &mut [u8], head: Head, row: &Row) -> usize
    requires { (row.now.count ≤ 20) × (5 + 8 * row.now.count ≤ length out.old) }
    ensures len { result ≡ 5 + 8 * row.now.count }
    ensures bytes { out.new ≡ onto (entry_bytes head (curve_bytes (row_steps row.now))) out.old }
    ensures back { CurveBack head.sub (row_steps row.now) }
    ensures reads { CurveReads head.sub (row_steps row.now) (body_of out.new) }
{
    let at = write_head(out, head, 8 * row.count);
    at + write_steps(&mut out[at..], *row)
}
