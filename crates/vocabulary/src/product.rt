// Products: energy and the three classes of operating reserve.
ghost use Rattle.std.specs.Prelude.{◌≡◌};
ghost use Rattle.vocabulary.specs.Numbers.{product_number};
ghost use Rattle.vocabulary.specs.Tests.{most_steps, curve_test, impact_test};

use crate::test::Test;

#[derive(Clone, Copy, PartialEq, Eq)]
pub enum Product {
    Energy,
    Spinning,
    NonSpinning,
    ThirtyMinute,
}

impl Product {
    pub fn number(self) -> usize
        ensures { result ≡ product_number self }
    {
        self as usize
    }

    // The most steps of a curve.
    pub fn most_steps(self) -> usize
        ensures { result ≡ most_steps self }
    {
        match self {
            Product::Energy => 20,
            _ => 5,
        }
    }

    // The test of an offer curve's conduct.
    pub fn curve_test(self) -> Test
        ensures { result ≡ curve_test self }
    {
        match self {
            Product::Energy => Test::EnergyCurve,
            _ => Test::ReserveCurve,
        }
    }

    // The test of an impact on prices.
    pub fn impact_test(self) -> Test
        ensures { result ≡ impact_test self }
    {
        match self {
            Product::Energy => Test::EnergyImpact,
            _ => Test::ReserveImpact,
        }
    }
}
