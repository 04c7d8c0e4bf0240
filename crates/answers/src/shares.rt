// What every resource brings to the groups of each product.
ghost use Rattle.std.specs.Prelude.{◌≡◌};
ghost use Rattle.vocabulary.specs.Readings.{lines_of};
ghost use Rattle.charges.specs.Tables.{owns_of};
ghost use Rattle.answers.specs.Shares.{Shared};

use bounds::bound::Bound;
use charges::group::shares;
use charges::share::Share;
use kinds::amounts::Amounts;
use vocabulary::lines::Lines;
use vocabulary::product::Product;
use vocabulary::resource::Resource;

// The shares of all resources, product by product, which rise by number.
#[derive(Clone, Copy)]
pub struct Shares {
    pub by_product: [[Share; 32]; 4],
}

impl Shares {
    pub fn of<Q: Bound>(quantities: &Amounts<Q>, lines: &Lines, table: &[Resource; 32]) -> Shares
        ensures { Shared (Q.Bound.meaning quantities.now.bound) (lines_of lines.now) (owns_of table.now) result }
    {
        Shares {
            by_product: [
                shares(quantities, lines, table, Product::Energy),
                shares(quantities, lines, table, Product::Spinning),
                shares(quantities, lines, table, Product::NonSpinning),
                shares(quantities, lines, table, Product::ThirtyMinute),
            ],
        }
    }
}
