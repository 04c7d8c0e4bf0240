// A line of a listing.
ghost use Rattle.std.specs.Prelude.{◌≡◌, ℕ, ◌^◌, ◌<◌, ◌≤◌, length, sum};
ghost use Rattle.answers.specs.Lines.{owed, verdicts_of, line_of};
ghost use Rattle.writers.specs.Buffers.{onto};
ghost use Rattle.listing.specs.Lengths.{verdicts_length, owed_length};

use crate::decimal::{decimal_length, write_decimal};
use crate::letters::{letters_length, write_letters};
use answers::answer::Answer;
use writers::bytes::write_bytes;

fn total(charges: &[u64]) -> u64
    requires { sum charges.now < 2 ^ 64 }
    ensures { result ≡ sum charges.now }
{
    charges.iter().sum()
}

// The length of what `write_owed` writes.
fn owed_length(charges: &[u64]) -> usize
    requires { sum charges.now < 2 ^ 64 }
    ensures len { result ≡ owed_length charges.now }
    ensures most { result ≤ 22 }
{
    decimal_length(total(charges)) + 2
}

// A blank, the charges added, and the line's end.
fn write_owed(out: &mut [u8], charges: &[u64]) -> usize
    requires { (sum charges.now < 2 ^ 64) × (owed_length charges.now ≤ length out.old) }
    ensures len { result ≡ owed_length charges.now }
    ensures bytes { out.new ≡ onto (owed charges.now) out.old }
{
    out[0] = b' ';
    let at = 1 + write_decimal(&mut out[1..], total(charges));
    out[at] = b'\n';
    at + 1
}

// The length of what `write_verdicts` writes.
fn verdicts_length(answer: &Answer) -> usize
    ensures len { result ≡ verdicts_length answer.now }
    ensures most { result ≤ 31 }
{
    2 + letters_length(&answer.conduct)
        + letters_length(&answer.impact)
        + letters_length(&answer.resource)
        + letters_length(&answer.entity)
        + letters_length(&answer.quantity_impact)
}

// The resource's number, then a group of letters for each kind of verdict.
fn write_verdicts(out: &mut [u8], resource: u8, answer: &Answer) -> usize
    requires { (resource < 100) × (verdicts_length answer.now ≤ length out.old) }
    ensures len { result ≡ verdicts_length answer.now }
    ensures bytes { out.new ≡ onto (verdicts_of resource answer.now) out.old }
{
    let mut at = write_bytes(out, &[b'0' + resource / 10, b'0' + resource % 10]);
    at += write_letters(&mut out[at..], &answer.conduct);
    at += write_letters(&mut out[at..], &answer.impact);
    at += write_letters(&mut out[at..], &answer.resource);
    at += write_letters(&mut out[at..], &answer.entity);
    at + write_letters(&mut out[at..], &answer.quantity_impact)
}

pub fn line_length(answer: &Answer) -> usize
    requires { sum answer.now.charges < 2 ^ 64 }
    ensures len { (resource : ℕ) → result ≡ length (line_of resource answer.now) }
    ensures most { result ≤ 53 }
{
    verdicts_length(answer) + owed_length(&answer.charges)
}

// How many bytes the line took.
pub fn write_line(out: &mut [u8], resource: u8, answer: &Answer) -> usize
    requires { (resource < 100) × ((sum answer.now.charges < 2 ^ 64) × (length (line_of resource answer.now) ≤ length out.old)) }
    ensures len { result ≡ length (line_of resource answer.now) }
    ensures bytes { out.new ≡ onto (line_of resource answer.now) out.old }
{
    let at = write_verdicts(out, resource, answer);
    at + write_owed(&mut out[at..], &answer.charges)
}
