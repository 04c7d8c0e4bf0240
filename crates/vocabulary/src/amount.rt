// The parameters of an energy offer that are one amount.
ghost use Rattle.std.specs.Prelude.{◌≡◌};
ghost use Rattle.vocabulary.specs.Numbers.{amount_number};
ghost use Rattle.vocabulary.specs.Tests.{amount_test};

use crate::test::Test;

// Costs in cents, run time in hours, ramp rate in tenths of a megawatt a minute.
#[derive(Clone, Copy, PartialEq, Eq)]
pub enum Amount {
    StartUp,
    SpeedNoLoad,
    RunTime,
    RampRate,
}

impl Amount {
    pub fn number(self) -> usize
        ensures { result ≡ amount_number self }
    {
        self as usize
    }

    // The test of its conduct.
    pub fn test(self) -> Test
        ensures { result ≡ amount_test self }
    {
        match self {
            Amount::StartUp => Test::StartUp,
            Amount::SpeedNoLoad => Test::SpeedNoLoad,
            Amount::RunTime => Test::RunTime,
            Amount::RampRate => Test::RampRate,
        }
    }
}
