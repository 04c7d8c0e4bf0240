// What names a slot.
ghost use Rattle.std.specs.Prelude.{◌≡◌};
ghost use Rattle.bodies.specs.Faults.{fault_of};
ghost use Rattle.entries.specs.Files.{head_fault};
ghost use Rattle.entries.specs.Table.{kinds};

use bodies::fault::Fault;

// The three bytes before an entry's length.
#[derive(Clone, Copy, PartialEq, Eq, Debug)]
pub struct Head {
    pub kind: u8,
    pub first: u8,
    pub sub: u8,
}

impl Head {
    // Refuses a head that names no slot.
    pub fn check(self) -> Result<(), Fault>
        ensures { fault_of result ≡ head_fault kinds self }
    {
        match (self.kind, self.first, self.sub) {
            (1, 0..=4, 0..=9) => Ok(()),
            (2 | 7, 0..=31, 0) => Ok(()),
            (3 | 4, 0..=31, 0..=7) => Ok(()),
            (5, 0..=31, 0..=3) => Ok(()),
            (6, 0..=31, s) if s < 12 => Ok(()),
            (1..=7, _, _) => Err(Fault::Slot),
            _ => Err(Fault::Kind),
        }
    }
}
