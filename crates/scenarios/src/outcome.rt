// What can keep a scenario from agreeing.
use bodies::fault::Refusal;
use histories::document::Document;
use std::fmt;

// A file of the scenario that cannot be read, the refusal of its entries, or the first of the book's files that
// is not as expected.
#[derive(Clone, Copy)]
pub enum Disagreement {
    Unread(Document),
    Refused(Refusal),
    Differs(Document),
}

pub fn document_name(document: Document) -> &'static str {
    match document {
        Document::Entries => "entries",
        Document::Listing => "listing",
        Document::Mitigated => "mitigated",
    }
}

impl fmt::Display for Disagreement {
    fn fmt<W: fmt::Write>(&self, f: &mut fmt::Formatter<W>) -> fmt::Result {
        match *self {
            Disagreement::Unread(document) => {
                let name = document_name(document);
                write!(f, "{name} cannot be read")
            }
            Disagreement::Refused(refusal) => {
                let number = refusal.fault.number();
                let place = refusal.place;
                write!(f, "entries refused with {number} at {place}")
            }
            Disagreement::Differs(document) => f.write_str(document_name(document)),
        }
    }
}
