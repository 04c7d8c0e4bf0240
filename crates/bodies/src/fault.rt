// Faults and refusals.
ghost use Rattle.std.specs.Prelude.{◌≡◌};
ghost use Rattle.bodies.specs.Faults.{fault_number};

// What is wrong with bytes (Short to Room), or with a call at this hour (Closed, Empty).
#[derive(Clone, Copy, PartialEq, Eq, Debug)]
pub enum Fault {
    Short = 1,
    Mark,
    Kind,
    Slot,
    Length,
    Range,
    Order,
    Room,
    Closed = 21,
    Empty,
}

// The fault, and the offset of the entry that has it.
#[derive(Clone, Copy, PartialEq, Eq, Debug)]
pub struct Refusal {
    pub fault: Fault,
    pub place: usize,
}

// A fault of no entry's in particular stands at the start.
impl From<Fault> for Refusal {
    ghost from_gives = { λ fault r. r ≡ record { fault = fault; place = 0 } };

    fn from(fault: Fault) -> Refusal {
        Refusal { fault, place: 0 }
    }
}

impl Fault {
    pub fn number(self) -> u8
        ensures { result ≡ fault_number self }
    {
        self as u8
    }
}
