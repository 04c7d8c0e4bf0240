// The slots of an hour: an entry is taken into one, or one is emptied.
ghost use Rattle.std.specs.Prelude.{◌≡◌, is_some, Some, None, slice_index_or, slice_set};
ghost use Rattle.bodies.specs.Bodies.{line_fault};
ghost use Rattle.entries.specs.Entries.{head, raw_of};
ghost use Rattle.entries.specs.Files.{head_fault, body_fault};
ghost use Rattle.entries.specs.Table.{kinds};
ghost use Rattle.ledger.specs.Ledger.{nothing};
ghost use Rattle.ledger.specs.Slots.{place};
ghost use Rattle.table.specs.Ranges.{AllRanged};
ghost use Rattle.table.specs.Tables.{slots_of};

use crate::hour::Table;
use crate::record;
use bodies::lines::read_line;
use entries::entry::Entry;
use entries::head::Head;
use vocabulary::lines::Terms;
use vocabulary::resource::Resource;

impl Table {
    pub fn empty() -> Table
        ensures slots { slots_of result ≡ nothing kinds }
        ensures ranged { AllRanged result }
    {
        Table {
            lines: [None; 50],
            resources: [Resource::empty(); 32],
        }
    }

    fn take_line(&mut self, condition: u8, test: u8, body: &[u8])
        requires slot { head_fault kinds (head 1 condition test) ≡ 0 }
        requires fault { line_fault test body.now ≡ 0 }
        ensures slots { slots_of self.new ≡ slice_set (slots_of self.old) (place kinds (head 1 condition test)) (Some body.now) }
        ensures ranged { AllRanged self.old → AllRanged self.new }
    {
        if let Ok(terms) = read_line(test, body) {
            self.lines[10 * condition as usize + test as usize] = Some(terms);
        }
    }

    // Stores what an entry without a fault says, in the slot that it names.
    pub fn take(&mut self, entry: Entry)
        requires slot { head_fault kinds (raw_of entry).head ≡ 0 }
        requires fault { body_fault kinds (raw_of entry).head (raw_of entry).body ≡ 0 }
        ensures slots { slots_of self.new ≡ slice_set (slots_of self.old) (place kinds (raw_of entry.entry).head) (Some (raw_of entry.entry).body) }
        ensures ranged { AllRanged self.old → AllRanged self.new }
    {
        match entry {
            Entry::Line {
                condition,
                test,
                body,
                ..
            } => self.take_line(condition, test, body),
            Entry::Standing { resource, .. }
            | Entry::Offer { resource, .. }
            | Entry::Reference { resource, .. }
            | Entry::Quantity { resource, .. }
            | Entry::Price { resource, .. }
            | Entry::Remark { resource, .. } => {
                record::take(&mut self.resources[resource as usize], entry);
            }
        }
    }

    fn clear_line(&mut self, condition: u8, test: u8) -> bool
        requires { head_fault kinds (head 1 condition test) ≡ 0 }
        ensures slots { slots_of self.new ≡ slice_set (slots_of self.old) (place kinds (head 1 condition test)) None }
        ensures was { result ≡ is_some (slice_index_or (slots_of self.old) (place kinds (head 1 condition test)) None) }
        ensures ranged { AllRanged self.old → AllRanged self.new }
    {
        let at = 10 * condition as usize + test as usize;
        self.lines[at].take().is_some()
    }

    // Leaves the slot that a head names empty, and says whether it was full.
    pub fn clear(&mut self, head: Head) -> bool
        requires { head_fault kinds head ≡ 0 }
        ensures slots { slots_of self.new ≡ slice_set (slots_of self.old) (place kinds head) None }
        ensures was { result ≡ is_some (slice_index_or (slots_of self.old) (place kinds head) None) }
        ensures ranged { AllRanged self.old → AllRanged self.new }
    {
        match head.kind {
            1 => self.clear_line(head.first, head.sub),
            _ => record::clear(&mut self.resources[head.first as usize], head),
        }
    }
}
