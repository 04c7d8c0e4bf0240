// Whatever has slots that a file is drawn from.
ghost use Rattle.std.specs.Prelude.{◌≡◌};
ghost use Rattle.entries.specs.Files.{head_fault};
ghost use Rattle.entries.specs.Table.{kinds};
ghost use Rattle.ledger.specs.Views.{Holding};
ghost use Rattle.files.specs.Fillings.{slot_bytes, Sound};
ghost use Rattle.ledger.specs.Slots.{entry_of};

use crate::filled::Filled;
use entries::head::Head;

pub trait Slots {
    ghost holding: { Self → Holding };

    // What the slot of a head holds; none where it is empty.
    fn slot(&self, head: Head) -> Option<Filled>
        requires { head_fault kinds head ≡ 0 }
        ensures bytes { slot_bytes result ≡ entry_of head (holding self.now head) }
        ensures sound { Sound result };
}
