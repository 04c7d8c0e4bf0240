// The tests that lines are posted for.
ghost use Rattle.std.specs.Prelude.{◌≡◌};
ghost use Rattle.vocabulary.specs.Numbers.{test_number};

#[derive(Clone, Copy, PartialEq, Eq)]
pub enum Test {
    EnergyCurve,
    ReserveCurve,
    StartUp,
    SpeedNoLoad,
    RunTime,
    RampRate,
    EnergyImpact,
    ReserveImpact,
    ResourceQuantity,
    EntityQuantity,
}

impl Test {
    pub fn number(self) -> usize
        ensures { result ≡ test_number self }
    {
        self as usize
    }
}
