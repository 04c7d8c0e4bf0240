// The answer to an entry file: its fault, or the listing of an hour that holds it.
ghost use Rattle.std.specs.Prelude.{◌≡◌, IfOk};
ghost use Rattle.answering.specs.Texts.{text_for, standard_meanings};

use crate::texts::{listing, refused};
use book::book::Book;
use bounds::ceiling::Ceiling;
use bounds::exemption::Exemption;
use bounds::shortfall::Shortfall;
use charges::rules::Rules;
use std::alloc::{AllocError, Global};
use verdicts::places::standard;

// An input with more bytes is not looked at.
pub const MOST: usize = 65_536;

// The answer over any bounds.
pub fn answer_over<R: Rules + Drop>(
    rules: R,
    heap: Global,
    input: &[u8],
) -> Result<Vec<u8>, AllocError>
    ensures { IfOk result (λ v. v.items ≡ text_for (R.meanings rules) input.now) }
{
    if input.len() > MOST {
        return Vec::from_slice(heap, b"TOO LONG\n");
    }
    let mut book = Book::open(rules);
    if let Err(refusal) = book.load(input) {
        let text = refused(heap, refusal)?;
        return Vec::from_slice(heap, text.as_bytes());
    }
    listing(heap, &book)
}

// The answer over the market's own bounds.
pub fn answer(heap: Global, input: &[u8]) -> Result<Vec<u8>, AllocError>
    ensures { IfOk result (λ v. v.items ≡ text_for standard_meanings input.now) }
{
    answer_over(standard(), heap, input)
}
