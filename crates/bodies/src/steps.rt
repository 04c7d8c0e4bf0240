// The body of a curve: a price and an end for each step.
ghost use Rattle.std.specs.Prelude.{◌≡◌, ◌*◌, ◌%◌, ◌≤◌, ◌&&◌, length, if◌then◌else◌, MatchResult};
ghost use Rattle.bodies.specs.Bodies.{most_steps as most_of, curve_fault};
ghost use Rattle.curves.specs.Steps.{rises, in_order as in_order_of};
ghost use Rattle.bodies.specs.Curves.{step_of, in_step_range, all_in_range, curve_steps, Holds};
ghost use Rattle.bodies.specs.Faults.{fault_number, fault_of, Reads};

use crate::amounts::in_price_range;
use crate::fault::Fault;
use crate::numbers::{read_number, read_word};
use curves::order::{in_order, rises_to};
use curves::row::Row;
use curves::step::Step;

fn read_step(bytes: &[u8; 8]) -> Step
    ensures { result ≡ step_of bytes.now }
{
    Step {
        price: read_number(bytes, 0),
        end: read_word(bytes, 4),
    }
}

fn in_range(step: Step) -> bool
    ensures { result ≡ in_step_range step }
{
    in_price_range(step.price) && matches!(step.end, 1..=100_000)
}

// Energy may have more steps than reserve.
pub fn most_steps(parameter: u8) -> usize
    ensures { result ≡ most_of parameter }
{
    match parameter {
        0 => 20,
        _ => 5,
    }
}

fn still_rises(ordered: bool, last: &Step, next: &Step) -> bool
    ensures { result ≡ (ordered && rises last.now next.now) }
{
    ordered && rises_to(last, next)
}

// How many steps a body has: whole ones, and no more than the parameter may have.
fn step_count(parameter: u8, body: &[u8]) -> Result<usize, Fault>
    ensures { MatchResult result (λ n. (length body.now ≡ 8 * n) × (1 ≤ n) × (n ≤ most_of parameter)) (λ fault. fault_number fault ≡ curve_fault parameter body.now) }
{
    if body.len() % 8 != 0 {
        return Err(Fault::Length);
    }
    let count = body.len() / 8;
    if !(1..=most_steps(parameter)).contains(&count) {
        return Err(Fault::Range);
    }
    Ok(count)
}

// Refuses whole steps, of which there is one or more: a step out of range comes before all order.
fn check_steps(body: &[u8]) -> Result<(), Fault>
    requires whole { length body.now % 8 ≡ 0 }
    requires some { 8 ≤ length body.now }
    ensures { fault_of result ≡ (if all_in_range (curve_steps body.now) then (if in_order_of (curve_steps body.now) then 0 else 7) else 6) }
{
    let (chunks, _) = body.as_chunks::<8>();
    let [first, more @ ..] = chunks else {
        return Err(Fault::Range);
    };
    let mut last = read_step(first);
    if !in_range(last) {
        return Err(Fault::Range);
    }
    let mut ordered = true;
    for bytes in more {
        let next = read_step(bytes);
        if !in_range(next) {
            return Err(Fault::Range);
        }
        ordered = still_rises(ordered, &last, &next);
        last = next;
    }
    if ordered { Ok(()) } else { Err(Fault::Order) }
}

// Refuses a body that no curve of the parameter has.
pub fn check_curve(parameter: u8, body: &[u8]) -> Result<(), Fault>
    ensures { fault_of result ≡ curve_fault parameter body.now }
{
    step_count(parameter, body)?;
    check_steps(body)
}

// Each step's numbers are read in turn; the order of the steps comes last.
pub fn read_curve(parameter: u8, body: &[u8]) -> Result<Row, Fault>
    ensures { Reads (curve_fault parameter body.now) (Holds body.now) result }
{
    let count = step_count(parameter, body)?;
    let (chunks, _) = body.as_chunks::<8>();
    let mut steps = [Step { price: 0, end: 0 }; 20];
    for (i, bytes) in chunks.iter().enumerate() {
        let step = read_step(bytes);
        if !in_range(step) {
            return Err(Fault::Range);
        }
        steps[i] = step;
    }
    if !in_order(&steps[..count]) {
        return Err(Fault::Order);
    }
    Ok(Row { steps, count })
}
