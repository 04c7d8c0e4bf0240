// How a resource stands: whose it is, what a shortage costs, and where it is.
ghost use Rattle.std.specs.Prelude.{◌≡◌};
ghost use Rattle.vocabulary.specs.Readings.{set_for as set_of};

use crate::product::Product;

// The entity (0: none), the multiplier of its charges, and a set of conditions for each product.
#[derive(Clone, Copy, PartialEq, Eq)]
pub struct Standing {
    pub entity: u8,
    pub multiplier: u8,
    pub energy: u8,
    pub spinning: u8,
    pub non_spinning: u8,
    pub thirty_minute: u8,
}

impl Standing {
    pub fn set_for(&self, product: Product) -> u8
        ensures { result ≡ set_of self.now product }
    {
        match product {
            Product::Energy => self.energy,
            Product::Spinning => self.spinning,
            Product::NonSpinning => self.non_spinning,
            Product::ThirtyMinute => self.thirty_minute,
        }
    }
}
