// The texts that an answer is made of.
ghost use Rattle.std.specs.Prelude.{◌≡◌, IfOk, Err, string_bytes};
ghost use Rattle.entries.specs.Files.{told};
ghost use Rattle.ledger.specs.Listing.{listing as listing_of};
ghost use Rattle.table.specs.Ranges.{AllRanged};
ghost use Rattle.table.specs.Tables.{slots_of};
ghost use Rattle.answering.specs.Texts.{refused as refused_of};

use bodies::fault::Refusal;
use book::book::Book;
use charges::rules::Rules;
use std::alloc::{AllocError, Global};

// The line that tells a refusal.
pub fn refused(heap: Global, refusal: Refusal) -> Result<String, AllocError>
    ensures { IfOk result (λ s. string_bytes s ≡ refused_of (told (Err refusal))) }
{
    let number = refusal.fault.number();
    let place = refusal.place;
    format!(in heap; "REFUSED {number} AT {place}\n")
}

// A book's listing.
pub(crate) fn listing<R: Rules>(heap: Global, book: &Book<R>) -> Result<Vec<u8>, AllocError>
    requires { AllRanged book.now.table }
    ensures { IfOk result (λ v. v.items ≡ listing_of (R.meanings book.now.rules) (slots_of book.now.table)) }
{
    let mut bytes = [0; 1696];
    let Ok(length) = book.write_listing(&mut bytes, 0) else {
        return Ok(Vec::new(heap));
    };
    Vec::from_slice(heap, &bytes[0..length])
}
