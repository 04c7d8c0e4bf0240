// What a resource brings to the groups of a product, worked out once.
ghost use Rattle.std.specs.Prelude.{◌≡◌, ◌≤◌};
ghost use Rattle.vocabulary.specs.Readings.{own_of, lines_of};
ghost use Rattle.charges.specs.Groups.{known as known_of, group_of, share as share_of, is_group, brought as brought_of};

use bounds::bound::Bound;
use kinds::amounts::Amounts;
use verdicts::quantity::{judged_offer, offered};
use vocabulary::condition::Condition;
use vocabulary::lines::Lines;
use vocabulary::product::Product;
use vocabulary::resource::Resource;
use vocabulary::verdict::Verdict;

// The resources of one entity under one condition.
#[derive(Clone, Copy, PartialEq, Eq)]
pub struct Group {
    pub entity: u8,
    pub condition: Condition,
}

// The group that a resource is in, its own verdict, and its quantities.
#[derive(Clone, Copy)]
pub struct Share {
    pub group: Option<Group>,
    pub verdict: Verdict,
    pub offered: u32,
    pub reference: u32,
}

// A quantity that is missing counts as 0.
pub fn known(quantity: Option<u32>) -> u32
    ensures { result ≡ known_of quantity }
{
    quantity.unwrap_or(0)
}

impl Group {
    // The group of a resource that belongs to an entity and passed by itself.
    fn of(entity: u8, condition: Option<Condition>, verdict: Verdict) -> Option<Group>
        ensures { result ≡ group_of entity condition verdict }
    {
        match (verdict, condition) {
            (Verdict::Passed, Some(condition)) if entity != 0 => Some(Group { entity, condition }),
            _ => None,
        }
    }

    fn is(self, other: Option<Group>) -> bool
        ensures { result ≡ is_group self other }
    {
        other == Some(self)
    }

    // What a member brings, and another does not.
    pub fn brought(self, other: Option<Group>, quantity: u32) -> u32
        ensures { result ≡ brought_of self other quantity }
    {
        if self.is(other) { quantity } else { 0 }
    }
}

impl Share {
    #[tactic(auto, unfolding(crate::specs::Groups::share))]
    pub fn of<Q: Bound>(
        quantities: &Amounts<Q>,
        lines: &Lines,
        resource: &Resource,
        product: Product,
    ) -> Share
        ensures value { result ≡ share_of (Q.Bound.meaning quantities.now.bound) (lines_of lines.now) (own_of resource.now) product }
        ensures small { (result.offered ≤ 100000) × (result.reference ≤ 100000) }
    {
        let offered = offered(resource, product);
        let verdict = judged_offer(quantities, lines, resource, product, offered);
        Share {
            group: Group::of(resource.entity(), resource.condition(product), verdict),
            verdict,
            offered,
            reference: known(resource.quantity(product)),
        }
    }
}
