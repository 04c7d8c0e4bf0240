// Bodies of one number: amounts, reference quantities and prices.
ghost use Rattle.std.specs.Prelude.{◌≡◌};
ghost use Rattle.bounds.specs.Ranges.{in_price_range as price_in_range};
ghost use Rattle.bodies.specs.Bodies.{sized, most_amount as most_of, amount_fault, quantity_fault, price_fault};
ghost use Rattle.bodies.specs.Faults.{Reads};
ghost use Rattle.bodies.specs.Numbers.{word, number, word_bytes, number_bytes};

use crate::fault::Fault;
use crate::numbers::read_word;

// The number that is the whole body.
fn whole_word(body: &[u8]) -> Result<u32, Fault>
    ensures { Reads (sized 4 body.now 0) (λ n. (n ≡ word body.now) × (word_bytes n ≡ body.now)) result }
{
    if body.len() != 4 {
        return Err(Fault::Length);
    }
    Ok(read_word(body, 0))
}

// The same, signed.
fn whole_number(body: &[u8]) -> Result<i32, Fault>
    ensures { Reads (sized 4 body.now 0) (λ z. (z ≡ number body.now) × (number_bytes z ≡ body.now)) result }
{
    Ok(whole_word(body)?.cast_signed())
}

fn most_amount(parameter: u8) -> i32
    ensures { result ≡ most_of parameter }
{
    match parameter {
        6 => 24,
        7 => 10_000,
        _ => 100_000_000,
    }
}

pub fn in_price_range(value: i32) -> bool
    ensures { result ≡ price_in_range value }
{
    matches!(value, -10_000..=200_000)
}

// A cost in cents, a run time in hours or a ramp rate in tenths of a megawatt a minute.
pub fn read_amount(parameter: u8, body: &[u8]) -> Result<i32, Fault>
    ensures { Reads (amount_fault parameter body.now) (λ z. (z ≡ number body.now) × (number_bytes z ≡ body.now)) result }
{
    let value = whole_number(body)?;
    if (0..=most_amount(parameter)).contains(&value) {
        Ok(value)
    } else {
        Err(Fault::Range)
    }
}

pub fn read_quantity(body: &[u8]) -> Result<u32, Fault>
    ensures { Reads (quantity_fault body.now) (λ n. (n ≡ word body.now) × (word_bytes n ≡ body.now)) result }
{
    let tenths = whole_word(body)?;
    if tenths <= 100_000 {
        Ok(tenths)
    } else {
        Err(Fault::Range)
    }
}

pub fn read_price(body: &[u8]) -> Result<i32, Fault>
    ensures { Reads (price_fault body.now) (λ z. (z ≡ number body.now) × (number_bytes z ≡ body.now)) result }
{
    let price = whole_number(body)?;
    if in_price_range(price) {
        Ok(price)
    } else {
        Err(Fault::Range)
    }
}
