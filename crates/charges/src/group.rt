// The groups of a product: what their members offer together.
ghost use Rattle.std.specs.Prelude.{◌≡◌, ◌<◌, ◌≤◌};
ghost use Rattle.vocabulary.specs.Readings.{lines_of};
ghost use Rattle.charges.specs.Groups.{SharesOf, Small, total, share_offered, share_reference, group_verdict as group_verdict_of, entity_quantity as entity_quantity_of};
ghost use Rattle.charges.specs.Tables.{owns_of};

use crate::share::{Group, Share};
use bounds::bound::Bound;
use kinds::amounts::Amounts;
use verdicts::quantity::judged_quantity;
use vocabulary::lines::{Lines, line};
use vocabulary::product::Product;
use vocabulary::resource::Resource;
use vocabulary::test::Test;
use vocabulary::verdict::Verdict;

// What a group offers, and what its reference quantities add up to.
#[derive(Clone, Copy)]
struct Sums {
    offered: u32,
    reference: u32,
}

// The shares of the whole table: each resource is judged once.
pub fn shares<Q: Bound>(
    quantities: &Amounts<Q>,
    lines: &Lines,
    table: &[Resource; 32],
    product: Product,
) -> [Share; 32]
    ensures made { SharesOf (Q.Bound.meaning quantities.now.bound) (lines_of lines.now) (owns_of table.now) product result }
    ensures small { Small result }
{
    let mut shares = [Share {
        group: None,
        verdict: Verdict::NotTested,
        offered: 0,
        reference: 0,
    }; 32];
    for (i, resource) in table.iter().enumerate() {
        shares[i] = Share::of(quantities, lines, resource, product);
    }
    shares
}

fn added_up(shares: &[Share; 32], group: Group) -> Sums
    requires { Small shares.now }
    ensures offered { result.offered ≡ total (share_offered shares.now group) 32 }
    ensures reference { result.reference ≡ total (share_reference shares.now group) 32 }
    ensures small { (result.offered ≤ 3200000) × (result.reference ≤ 3200000) }
{
    let mut offered = 0;
    let mut reference = 0;
    for share in shares {
        offered += group.brought(share.group, share.offered);
        reference += group.brought(share.group, share.reference);
    }
    Sums { offered, reference }
}

// The verdict on the members of a group.
fn group_verdict<Q: Bound>(
    quantities: &Amounts<Q>,
    lines: &Lines,
    shares: &[Share; 32],
    group: Option<Group>,
) -> Verdict
    requires { Small shares.now }
    ensures { result ≡ group_verdict_of (Q.Bound.meaning quantities.now.bound) (lines_of lines.now) (λ g. total (share_reference shares.now g) 32) (λ g. total (share_offered shares.now g) 32) group }
{
    let Some(group) = group else {
        return Verdict::NotTested;
    };
    let sums = added_up(shares, group);
    let line = line(lines, Some(group.condition), Test::EntityQuantity);
    judged_quantity(quantities, line, Some(sums.reference), sums.offered)
}

// The entity quantity verdict of resource i, from the shares of the table.
pub fn entity_quantity<Q: Bound>(
    quantities: &Amounts<Q>,
    lines: &Lines,
    table: &[Resource; 32],
    shares: &[Share; 32],
    product: Product,
    i: usize,
) -> Verdict
    requires index { i < 32 }
    requires made { SharesOf (Q.Bound.meaning quantities.now.bound) (lines_of lines.now) (owns_of table.now) product shares.now }
    requires small { Small shares.now }
    ensures { result ≡ entity_quantity_of (Q.Bound.meaning quantities.now.bound) (lines_of lines.now) (owns_of table.now) product i }
{
    group_verdict(quantities, lines, shares, shares[i].group)
}
