// Calls on a book: each answers what the plain ledger's fault is, and leaves the ledger's next state.
ghost use Rattle.std.specs.Prelude.{◌≡◌, ◌≤◌, true, false, length, MatchResult};
ghost use Rattle.bodies.specs.declared.fault.Fault.TheVariants.{Closed};
ghost use Rattle.entries.specs.Entries.{head};
ghost use Rattle.entries.specs.Files.{told};
ghost use Rattle.entries.specs.Table.{kinds};
ghost use Rattle.ledger.specs.Ledger.{posted, cleared, loaded, closed, empty as no_calls, fault as fault_of, step};
ghost use Rattle.ledger.specs.Listing.{listing as listing_of};
ghost use Rattle.ledger.specs.Mitigation.{mitigated_file};
ghost use Rattle.ledger.specs.Slots.{entry_file};
ghost use Rattle.table.specs.Ranges.{AllRanged};
ghost use Rattle.table.specs.Tables.{slots_of};
ghost use Rattle.files.specs.Placing.{file_of, Written};
ghost use Rattle.offers.specs.Rows.{mitigated_rows};
ghost use Rattle.book.specs.Ledgers.{ledger_of};
ghost use Rattle.book.specs.Questions.{Asked};
ghost use Rattle.book.specs.Rows.{listing_rows, AskedRows};

use crate::book::Book;
use answers::answer::Answer;
use answers::listed::listed;
use answers::question::question;
use bodies::fault::{Fault, Refusal};
use charges::rules::Rules;
use entries::head::Head;
use entries::reader::{check_file, read_posted};
use files::file::write_file;
use listing::whole::write_listing;
use offers::mitigated::Mitigated;
use table::fill::fill;
use table::hour::Table;

impl<R: Rules> Book<R> {
    // An empty book over the given bounds.
    pub fn open(rules: R) -> Book<R>
        ensures ledger { ledger_of result.table result.is_open ≡ no_calls kinds }
        ensures bounds { result.rules ≡ rules }
        ensures ranged { AllRanged result.table }
    {
        Book {
            table: Table::empty(),
            is_open: true,
            rules,
        }
    }

    // Refuses whatever comes once the hour is closed.
    fn check_open(&self) -> Result<(), Refusal>
        ensures { MatchResult result (λ _. self.now.is_open ≡ true) (λ r. (r ≡ record { fault = Closed; place = 0 }) × (self.now.is_open ≡ false)) }
    {
        if !self.is_open {
            return Err(Fault::Closed.into());
        }
        Ok(())
    }

    // Ends entering.
    pub fn close(&mut self) -> Result<(), Refusal>
        ensures answer { told result ≡ fault_of kinds (ledger_of self.old.table self.old.is_open) closed }
        ensures ledger { ledger_of self.new.table self.new.is_open ≡ step kinds (ledger_of self.old.table self.old.is_open) closed }
        ensures bounds { self.new.rules ≡ self.old.rules }
        ensures ranged { AllRanged self.old.table → AllRanged self.new.table }
    {
        self.check_open()?;
        self.is_open = false;
        Ok(())
    }

    // Takes one entry whole.
    pub fn post(&mut self, bytes: &[u8]) -> Result<(), Refusal>
        ensures answer { told result ≡ fault_of kinds (ledger_of self.old.table self.old.is_open) (posted bytes.now) }
        ensures ledger { ledger_of self.new.table self.new.is_open ≡ step kinds (ledger_of self.old.table self.old.is_open) (posted bytes.now) }
        ensures bounds { self.new.rules ≡ self.old.rules }
        ensures ranged { AllRanged self.old.table → AllRanged self.new.table }
    {
        let entry = read_posted(bytes)?;
        self.check_open()?;
        self.table.take(entry);
        Ok(())
    }

    // Takes all entries of a file, or none.
    pub fn load(&mut self, file: &[u8]) -> Result<(), Refusal>
        ensures answer { told result ≡ fault_of kinds (ledger_of self.old.table self.old.is_open) (loaded file.now) }
        ensures ledger { ledger_of self.new.table self.new.is_open ≡ step kinds (ledger_of self.old.table self.old.is_open) (loaded file.now) }
        ensures bounds { self.new.rules ≡ self.old.rules }
        ensures ranged { AllRanged self.old.table → AllRanged self.new.table }
    {
        check_file(file)?;
        self.check_open()?;
        fill(&mut self.table, file);
        Ok(())
    }

    // Empties the slot that is named.
    pub fn clear(&mut self, kind: u8, first: u8, sub: u8) -> Result<(), Refusal>
        ensures answer { told result ≡ fault_of kinds (ledger_of self.old.table self.old.is_open) (cleared (head kind first sub)) }
        ensures ledger { ledger_of self.new.table self.new.is_open ≡ step kinds (ledger_of self.old.table self.old.is_open) (cleared (head kind first sub)) }
        ensures bounds { self.new.rules ≡ self.old.rules }
        ensures ranged { AllRanged self.old.table → AllRanged self.new.table }
    {
        let head = Head { kind, first, sub };
        head.check()?;
        self.check_open()?;
        if self.table.clear(head) {
            Ok(())
        } else {
            Err(Fault::Empty.into())
        }
    }

    // Writes the entry file from a place of the buffer on, and says how long it is.
    pub fn write_entries(&self, out: &mut [u8], place: usize) -> Result<usize, Refusal>
        ensures { Written place (entry_file kinds (slots_of self.now.table)) out.old out.new result }
    {
        write_file(&self.table, out, place)
    }

    // Writes the mitigated file, offers as the rules leave them, from a place of the buffer on, and says how long it is.
    pub fn write_mitigated(&self, out: &mut [u8], place: usize) -> Result<usize, Refusal>
        ensures rows { Written place (file_of (mitigated_rows (R.meanings self.now.rules) self.now.table)) out.old out.new result }
        ensures written { AllRanged self.now.table → Written place (mitigated_file (R.meanings self.now.rules) (slots_of self.now.table)) out.old out.new result }
    {
        let offers = Mitigated {
            table: &self.table,
            rules: &self.rules,
        };
        write_file(&offers, out, place)
    }

    // Writes the listing from a place of the buffer on, and says how long it is.
    pub fn write_listing(&self, out: &mut [u8], place: usize) -> Result<usize, Refusal>
        ensures rows { Written place (listing_rows (R.meanings self.now.rules) self.now.table) out.old out.new result }
        ensures written { AllRanged self.now.table → Written place (listing_of (R.meanings self.now.rules) (slots_of self.now.table)) out.old out.new result }
        ensures short { AllRanged self.now.table → length (listing_of (R.meanings self.now.rules) (slots_of self.now.table)) ≤ 1696 }
    {
        let answers = listed(&self.rules, &self.table.lines, &self.table.resources);
        write_listing(&answers, out, place)
    }

    // Fills the record with the verdicts on a resource and its charges.
    pub fn question(&self, resource: u8, answer: &mut Answer) -> Result<(), Refusal>
        ensures rows { AskedRows (R.meanings self.now.rules) self.now.table resource answer.old answer.new result }
        ensures asked { AllRanged self.now.table → Asked (R.meanings self.now.rules) (slots_of self.now.table) resource answer.old answer.new result }
    {
        if resource >= 32 {
            return Err(Fault::Slot.into());
        }
        *answer = question(
            &self.rules,
            &self.table.lines,
            &self.table.resources,
            resource as usize,
        );
        Ok(())
    }
}
