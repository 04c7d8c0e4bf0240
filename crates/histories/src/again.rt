// An entry file, loaded and written again.
ghost use Rattle.std.specs.Prelude.{◌≡◌};
ghost use Rattle.histories.specs.Acts.{acts_of};
ghost use Rattle.histories.specs.Histories.{WrittenAgain};

use crate::call::Call;
use crate::drawn::entry_file;
use crate::file::File;
use crate::replay::replay;
use book::book::Book;
use charges::rules::Rules;

// An entry file, whether a new book takes it, and that book's entry file.
#[derive(Clone, Copy)]
pub struct Rewritten {
    pub before: File,
    pub taken: bool,
    pub after: File,
}

// Loads the entry file of a replayed list into a new book, and writes it again.
pub fn write_again<R: Rules + Drop, S: Rules + Drop>(
    rules: R,
    calls: &[Call],
    new_rules: S,
) -> Rewritten
    ensures { WrittenAgain (acts_of calls.now) result }
{
    let one = replay(rules, calls);
    let before = entry_file(&one);
    let mut other = Book::open(new_rules);
    let taken = other.load(before.part()).is_ok();
    let after = entry_file(&other);
    Rewritten {
        before,
        taken,
        after,
    }
}
