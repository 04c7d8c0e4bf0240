// What the table holds of a resource, and how it is read.
ghost use Rattle.std.specs.Prelude.{◌≡◌, ◌≤◌, IfSome};
ghost use Rattle.std.specs.Option.{option_map};
ghost use Rattle.curves.specs.Curves.{steps_of};
ghost use Rattle.vocabulary.specs.Readings.{values_of, own_of};
ghost use Rattle.vocabulary.specs.Empty.{empty_resource};
ghost use Rattle.vocabulary.specs.Conditions.{condition_in_force, entity_of, multiplier_of};
ghost use Rattle.vocabulary.specs.Tests.{most_steps};

use crate::amount::Amount;
use crate::condition::Condition;
use crate::product::Product;
use crate::run::Run;
use crate::standing::Standing;
use curves::curve::Curve;
use curves::row::Row;

// The parameters of an offer, or their reference levels: a curve for each product, and the amounts of energy.
#[derive(Clone, Copy)]
pub struct Values {
    pub curves: [Row; 4],
    pub amounts: [Option<i32>; 4],
}

// A keeper's words, of which the first `count` bytes count.
#[derive(Clone, Copy)]
pub struct Remark {
    pub bytes: [u8; 120],
    pub count: usize,
}

#[derive(Clone, Copy)]
pub struct Resource {
    pub standing: Option<Standing>,
    pub offer: Values,
    pub reference: Values,
    pub quantities: [Option<u32>; 4],
    pub prices: [Option<i32>; 12],
    pub remark: Remark,
}

impl Values {
    pub fn curve(&self, product: Product) -> Option<Curve>
        ensures steps { option_map steps_of result ≡ (values_of self.now).curve product }
        ensures limits { IfSome result (λ c. c.limit ≡ most_steps product) }
    {
        Curve::of_row(self.curves[product.number()], product.most_steps())
    }

    pub fn amount(&self, amount: Amount) -> Option<i32>
        ensures { result ≡ (values_of self.now).amount amount }
    {
        self.amounts[amount.number()]
    }
}

impl Resource {
    // A resource of which nothing is known.
    pub fn empty() -> Resource
        ensures { result ≡ empty_resource }
    {
        let values = Values {
            curves: [Row::empty(); 4],
            amounts: [None; 4],
        };
        Resource {
            standing: None,
            offer: values,
            reference: values,
            quantities: [None; 4],
            prices: [None; 12],
            remark: Remark {
                bytes: [0; 120],
                count: 0,
            },
        }
    }

    // The condition in force for a product.
    pub fn condition(&self, product: Product) -> Option<Condition>
        ensures { result ≡ condition_in_force (own_of self.now) product }
    {
        Condition::lowest(self.standing?.set_for(product))
    }

    // The entity that the resource belongs to; 0 without one.
    pub fn entity(&self) -> u8
        ensures { result ≡ entity_of (own_of self.now) }
    {
        self.standing.map_or(0, |standing| standing.entity)
    }

    pub fn multiplier(&self) -> u8
        ensures { result ≡ multiplier_of (own_of self.now) }
    {
        self.standing.map_or(0, |standing| standing.multiplier)
    }

    // The reference quantity of a product.
    pub fn quantity(&self, product: Product) -> Option<u32>
        ensures value { result ≡ (own_of self.now).quantity product }
        ensures small { IfSome result (λ q. q ≤ 100000) }
    {
        self.quantities[product.number()].filter(|tenths| *tenths <= 100_000)
    }

    pub fn price(&self, product: Product, run: Run) -> Option<i32>
        ensures { result ≡ (own_of self.now).price product run }
    {
        self.prices[3 * product.number() + run.number()]
    }
}
