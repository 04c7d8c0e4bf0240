// The parameters of an offer: a curve for each product, and four amounts that belong to energy.
ghost use Rattle.std.specs.Prelude.{◌≡◌, ◌<◌};
ghost use Rattle.vocabulary.specs.Numbers.{parameter_number};
ghost use Rattle.vocabulary.specs.Orders.{parameter_at};

use crate::amount::Amount;
use crate::product::Product;

#[derive(Clone, Copy)]
pub enum Parameter {
    Curve(Product),
    Amount(Amount),
}

impl Parameter {
    // The parameter of a number; there are eight.
    pub fn at(number: u8) -> Parameter
        requires { number < 8 }
        ensures { result ≡ parameter_at number }
    {
        match number {
            0 => Parameter::Curve(Product::Energy),
            1 => Parameter::Curve(Product::Spinning),
            2 => Parameter::Curve(Product::NonSpinning),
            3 => Parameter::Curve(Product::ThirtyMinute),
            4 => Parameter::Amount(Amount::StartUp),
            5 => Parameter::Amount(Amount::SpeedNoLoad),
            6 => Parameter::Amount(Amount::RunTime),
            _ => Parameter::Amount(Amount::RampRate),
        }
    }

    pub fn number(self) -> usize
        ensures { result ≡ parameter_number self }
    {
        match self {
            Parameter::Curve(product) => product.number(),
            Parameter::Amount(amount) => 4 + amount.number(),
        }
    }
}
