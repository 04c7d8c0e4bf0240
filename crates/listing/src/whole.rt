// The lines of all resources that are listed.
ghost use Rattle.std.specs.Prelude.{◌≡◌, ℕ, ◌<◌, ◌≤◌, length};
ghost use Rattle.ledger.specs.Listing.{line_if};
ghost use Rattle.writers.specs.Buffers.{onto};
ghost use Rattle.files.specs.Placing.{Written};
ghost use Rattle.listing.specs.Wholes.{Fits, Fit, lines_of};

use crate::line::{line_length, write_line};
use answers::answer::Answer;
use bodies::fault::Refusal;
use writers::bytes::check_room;

// How many bytes a resource's line takes, if it is listed.
fn length_if(answer: Option<Answer>) -> usize
    requires { Fit answer }
    ensures len { (resource : ℕ) → result ≡ length (line_if resource answer) }
    ensures most { result ≤ 53 }
{
    answer.map_or(0, |answer| line_length(&answer))
}

// Writes a resource's line, if it is listed, and says how many bytes it took.
fn write_if(out: &mut [u8], resource: u8, answer: Option<Answer>) -> usize
    requires resource { resource < 100 }
    requires fit { Fit answer }
    requires room { length (line_if resource answer) ≤ length out.old }
    ensures len { result ≡ length (line_if resource answer) }
    ensures bytes { out.new ≡ onto (line_if resource answer) out.old }
{
    match answer {
        Some(answer) => write_line(out, resource, &answer),
        None => 0,
    }
}

// How many bytes the lines take.
pub fn listing_length(answers: &[Option<Answer>; 32]) -> usize
    requires { Fits answers.now }
    ensures len { result ≡ length (lines_of answers.now) }
    ensures most { result ≤ 1696 }
{
    let mut sum = 0;
    for answer in answers {
        sum += length_if(*answer);
    }
    sum
}

fn write_lines(answers: &[Option<Answer>; 32], out: &mut [u8]) -> usize
    requires fits { Fits answers.now }
    requires room { length (lines_of answers.now) ≤ length out.old }
    ensures len { result ≡ length (lines_of answers.now) }
    ensures bytes { out.new ≡ onto (lines_of answers.now) out.old }
{
    let mut at = 0;
    for (resource, answer) in answers.iter().enumerate() {
        at += write_if(&mut out[at..], resource as u8, *answer);
    }
    at
}

// Writes the lines at a place of the buffer, if there is room for all of them, and says how many bytes they took.
pub fn write_listing(
    answers: &[Option<Answer>; 32],
    out: &mut [u8],
    place: usize,
) -> Result<usize, Refusal>
    requires { Fits answers.now }
    ensures written { Written place (lines_of answers.now) out.old out.new result }
    ensures short { length (lines_of answers.now) ≤ 1696 }
{
    let n = listing_length(answers);
    check_room(out, place, n)?;
    Ok(write_lines(answers, &mut out[place..]))
}
