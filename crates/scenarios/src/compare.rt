// A scenario's entries loaded into a new book, and the book's files held against those expected.
ghost use Rattle.std.specs.Prelude.{◌≡◌, Decides};
ghost use Rattle.entries.specs.Table.{kinds};
ghost use Rattle.ledger.specs.Slots.{WellFormed};
ghost use Rattle.table.specs.Ranges.{AllRanged};
ghost use Rattle.table.specs.Tables.{slots_of};
ghost use Rattle.histories.specs.Documents.{drawn as drawn_of};
ghost use Rattle.scenarios.specs.Agreement.{FirstDifference, Compared};

use crate::outcome::Disagreement;
use book::book::Book;
use charges::rules::Rules;
use histories::document::Document;
use histories::drawn::file;

// The files of a scenario: the entries that the book is given and should write again, the listing and the
// mitigated file that should come out.
#[derive(Clone, Copy)]
pub struct Expected<'a> {
    pub entries: &'a [u8],
    pub listing: &'a [u8],
    pub mitigated: &'a [u8],
}

fn is_as_expected<R: Rules>(book: &Book<R>, document: Document, expected: &[u8]) -> bool
    requires well { WellFormed kinds (slots_of book.now.table) }
    requires ranged { AllRanged book.now.table }
    ensures { Decides result (drawn_of document (R.meanings book.now.rules) (slots_of book.now.table) ≡ expected.now) }
{
    file(book, document).part() == expected
}

fn first_difference<R: Rules>(book: &Book<R>, expected: &Expected) -> Result<(), Document>
    requires well { WellFormed kinds (slots_of book.now.table) }
    requires ranged { AllRanged book.now.table }
    ensures { FirstDifference (R.meanings book.now.rules) (slots_of book.now.table) expected.now result }
{
    if !is_as_expected(book, Document::Entries, expected.entries) {
        Err(Document::Entries)
    } else if !is_as_expected(book, Document::Listing, expected.listing) {
        Err(Document::Listing)
    } else if !is_as_expected(book, Document::Mitigated, expected.mitigated) {
        Err(Document::Mitigated)
    } else {
        Ok(())
    }
}

pub fn compare<R: Rules + Drop>(rules: R, expected: &Expected) -> Result<(), Disagreement>
    ensures { Compared (R.meanings rules) expected.now result }
{
    let mut book = Book::open(rules);
    book.load(expected.entries).map_err(Disagreement::Refused)?;
    first_difference(&book, expected).map_err(Disagreement::Differs)
}
