// A book's files.
ghost use Rattle.std.specs.Prelude.{◌≡◌, ◌≤◌, length, Decides};
ghost use Rattle.entries.specs.Table.{kinds};
ghost use Rattle.ledger.specs.Slots.{WellFormed, entry_file as entry_file_of};
ghost use Rattle.table.specs.Ranges.{AllRanged};
ghost use Rattle.table.specs.Tables.{slots_of};
ghost use Rattle.files.specs.Placing.{Written};
ghost use Rattle.histories.specs.Documents.{bytes_of, drawn as drawn_of, Holds, DrawnFrom};

use crate::document::Document;
pub use crate::file::File;
use bodies::fault::Refusal;
use book::book::Book;
use charges::rules::Rules;

// The three files of one book.
#[derive(Clone, Copy)]
pub struct Files {
    pub entries: File,
    pub mitigated: File,
    pub listing: File,
}

// Writes a file of a book at the front of what is lent.
fn write_document<R: Rules>(
    book: &Book<R>,
    document: Document,
    out: &mut [u8],
) -> Result<usize, Refusal>
    requires well { WellFormed kinds (slots_of book.now.table) }
    requires ranged { AllRanged book.now.table }
    ensures written { Written 0 (drawn_of document (R.meanings book.now.rules) (slots_of book.now.table)) out.old out.new result }
    ensures most { length (drawn_of document (R.meanings book.now.rules) (slots_of book.now.table)) ≤ 31319 }
{
    match document {
        Document::Entries => book.write_entries(out, 0),
        Document::Mitigated => book.write_mitigated(out, 0),
        Document::Listing => book.write_listing(out, 0),
    }
}

// A file of a book that some list of calls leads to.
pub fn file<R: Rules>(book: &Book<R>, document: Document) -> File
    requires well { WellFormed kinds (slots_of book.now.table) }
    requires ranged { AllRanged book.now.table }
    ensures { Holds (drawn_of document (R.meanings book.now.rules) (slots_of book.now.table)) result }
{
    let mut drawn = File {
        bytes: [0; 31_319],
        length: 0,
    };
    drawn.length = write_document(book, document, &mut drawn.bytes).unwrap_or(0);
    drawn
}

// The entry file of a book that some list of calls leads to.
pub fn entry_file<R: Rules>(book: &Book<R>) -> File
    requires { WellFormed kinds (slots_of book.now.table) }
    ensures { Holds (entry_file_of kinds (slots_of book.now.table)) result }
{
    let mut bytes = [0; 31_319];
    let length = book.write_entries(&mut bytes, 0).unwrap_or(0);
    File { bytes, length }
}

pub fn same_bytes(one: &File, other: &File) -> bool
    ensures { Decides result (bytes_of one.now ≡ bytes_of other.now) }
{
    one.part() == other.part()
}

impl Files {
    // The three files of a book that some list of calls leads to.
    pub fn of<R: Rules>(book: &Book<R>) -> Files
        requires well { WellFormed kinds (slots_of book.now.table) }
        requires ranged { AllRanged book.now.table }
        ensures { DrawnFrom (R.meanings book.now.rules) (slots_of book.now.table) result }
    {
        Files {
            entries: entry_file(book),
            mitigated: file(book, Document::Mitigated),
            listing: file(book, Document::Listing),
        }
    }
}
