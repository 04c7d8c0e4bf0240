// Two lists of calls, side by side.
ghost use Rattle.std.specs.Prelude.{◌≡◌};
ghost use Rattle.histories.specs.Acts.{acts_of};
ghost use Rattle.histories.specs.Histories.{Compared, ComparedWhole};

pub use crate::again::{Rewritten, write_again};
use crate::call::Call;
use crate::document::Document;
use crate::drawn::{Files, file, same_bytes};
use crate::file::File;
use crate::replay::replay;
use book::book::Book;
use charges::rules::Rules;

// The files of two books, and whether the two hours hold the same; whether a third new book takes the first's
// mitigated file, and the mitigated file of that book.
#[derive(Clone, Copy)]
pub struct Comparison {
    pub first: Files,
    pub second: Files,
    pub alike: bool,
    pub taken: bool,
    pub again: File,
}

// Replays two lists of calls on two new books, each over bounds of its own, draws and compares their files, and
// loads the first's mitigated file into a new book over the same bounds.
pub fn compare<R: Rules + Drop, S: Rules + Drop>(
    first_rules: R,
    first: &[Call],
    second_rules: S,
    second: &[Call],
) -> Comparison
    ensures compared { Compared (acts_of first.now) (acts_of second.now) result }
    ensures whole { ComparedWhole (R.meanings first_rules) (S.meanings second_rules) (acts_of first.now) (acts_of second.now) result }
{
    let one = replay(first_rules, first);
    let two = replay(second_rules, second);
    let of_first = Files::of(&one);
    let of_second = Files::of(&two);
    let alike = same_bytes(&of_first.entries, &of_second.entries);
    let Book { rules, .. } = one;
    let mut new = Book::open(rules);
    let taken = new.load(of_first.mitigated.part()).is_ok();
    Comparison {
        first: of_first,
        second: of_second,
        alike,
        taken,
        again: file(&new, Document::Mitigated),
    }
}
