// What is asked of a curve, and the substitute that is made from one.
ghost use Rattle.std.specs.Prelude.{◌≡◌, ◌<◌, ◌≤◌, length};
ghost use Rattle.curves.specs.Curves.{steps_of};
ghost use Rattle.curves.specs.Steps.{price_at as price_of, last_end, kept, substitute as substitute_of};

use super::Curve;
use crate::step::Step;

impl Curve {
    pub fn steps(&self) -> &[Step]
        ensures { result.now ≡ steps_of self.now }
    {
        &self.steps[..self.count]
    }

    // The most steps that this curve may have.
    pub fn limit(&self) -> usize
        ensures { result ≡ self.now.limit }
    {
        self.limit
    }

    // The price of the first step that ends at or beyond a quantity, else of the last.
    pub fn price_at(&self, quantity: u32) -> i32
        ensures { result ≡ price_of (steps_of self.now) quantity }
    {
        self.steps[self.kept_count(quantity)].price
    }

    // Where the last step ends.
    #[tactic(auto, using(crate::proofs::Walks::last_end_at))]
    pub fn last_end(&self) -> u32
        ensures value { result ≡ last_end (steps_of self.now) }
        ensures small { result ≤ 100000 }
    {
        self.steps[self.count - 1].end
    }

    // How many steps end below a quantity, the last left aside.
    fn kept_count(&self, quantity: u32) -> usize
        ensures count { result ≡ length (kept (steps_of self.now) quantity) }
        ensures within { result < self.now.count }
    {
        self.steps[..self.count - 1]
            .iter()
            .take_while(|step| step.end < quantity)
            .count()
    }

    // What stands in for an offer, where this is its reference.
    pub fn substitute(&self, offer: &Curve) -> Curve
        ensures value { steps_of result ≡ substitute_of (steps_of self.now) (last_end (steps_of offer.now)) }
        ensures limit { result.limit ≡ self.now.limit }
    {
        let quantity = offer.last_end();
        let n = self.kept_count(quantity);
        let mut steps = self.steps;
        steps[n].end = quantity;
        Curve {
            steps,
            count: n + 1,
            limit: self.limit,
        }
    }
}
