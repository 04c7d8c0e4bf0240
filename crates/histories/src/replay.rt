// A list of calls made in turn, refused or obeyed.
ghost use Rattle.std.specs.Prelude.{◌≡◌};
ghost use Rattle.entries.specs.Files.{told};
ghost use Rattle.entries.specs.Table.{kinds};
ghost use Rattle.ledger.specs.Ledger.{fault, step, ledger};
ghost use Rattle.table.specs.Ranges.{AllRanged};
ghost use Rattle.book.specs.Ledgers.{ledger_of};
ghost use Rattle.histories.specs.Acts.{act_of, acts_of};

use crate::call::Call;
use bodies::fault::Refusal;
use book::book::Book;
use charges::rules::Rules;

// Makes a call on a book, and answers what the book does.
pub fn obey<R: Rules>(book: &mut Book<R>, call: Call) -> Result<(), Refusal>
    ensures answer { told result ≡ fault kinds (ledger_of book.old.table book.old.is_open) (act_of call.entry) }
    ensures ledger { ledger_of book.new.table book.new.is_open ≡ step kinds (ledger_of book.old.table book.old.is_open) (act_of call.entry) }
    ensures bounds { book.new.rules ≡ book.old.rules }
    ensures ranged { AllRanged book.old.table → AllRanged book.new.table }
{
    match call {
        Call::Post(bytes) => book.post(bytes),
        Call::Clear { kind, first, sub } => book.clear(kind, first, sub),
        Call::Load(file) => book.load(file),
        Call::Close => book.close(),
    }
}

// A new book over the bounds after all the calls.
pub fn replay<R: Rules>(rules: R, calls: &[Call]) -> Book<R>
    ensures ledger { ledger_of result.table result.is_open ≡ ledger kinds (acts_of calls.now) }
    ensures bounds { result.rules ≡ rules }
    ensures ranged { AllRanged result.table }
{
    let mut book = Book::open(rules);
    for call in calls {
        let _ = obey(&mut book, *call);
    }
    book
}
