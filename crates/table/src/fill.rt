// A file's entries, taken in turn.
ghost use Rattle.std.specs.Prelude.{◌≡◌};
ghost use Rattle.entries.specs.Files.{no_fault, file_fault};
ghost use Rattle.entries.specs.Table.{kinds};
ghost use Rattle.ledger.specs.Slots.{load};
ghost use Rattle.table.specs.Ranges.{AllRanged};
ghost use Rattle.table.specs.Tables.{slots_of};

use crate::hour::Table;
use entries::cursor::Cursor;
use entries::reader::next_sound;

// Stores every entry of a file that has no fault; of two for one slot the later stays.
pub fn fill(table: &mut Table, file: &[u8])
    requires { file_fault kinds file.now ≡ no_fault }
    ensures slots { slots_of table.new ≡ load kinds file.now (slots_of table.old) }
    ensures ranged { AllRanged table.old → AllRanged table.new }
{
    let mut cursor = Cursor::at_first(file);
    'walk: loop {
        let Ok(next) = next_sound(file, &mut cursor) else {
            return;
        };
        let Some(entry) = next else {
            return;
        };
        table.take(entry);
    }
}
