// The records of a small hour.
ghost use Rattle.std.specs.Prelude.{◌≡◌};
ghost use Rattle.worked.specs.Hours.{row_of, only_energy as only_energy_of, standing as standing_of, energy_resource as energy_resource_of};

use curves::row::Row;
use curves::step::Step;
use vocabulary::resource::{Resource, Values};
use vocabulary::standing::Standing;

// A curve of at most four steps.
#[derive(Clone, Copy)]
pub struct Steps {
    pub list: [Step; 4],
    pub count: usize,
}

impl Steps {
    pub fn row(self) -> Row
        ensures { result ≡ row_of self }
    {
        let mut steps = [Step { price: 0, end: 0 }; 20];
        steps[..4].copy_from_slice(&self.list);
        Row {
            steps,
            count: self.count,
        }
    }
}

fn only_energy(row: Row) -> Values
    ensures { result ≡ only_energy_of row }
{
    let empty = Row::empty();
    Values {
        curves: [row, empty, empty, empty],
        amounts: [None; 4],
    }
}

// One that pays once for a shortage, with a set of conditions for energy.
pub(crate) fn standing(entity: u8, set: u8) -> Standing
    ensures { result ≡ standing_of entity set }
{
    Standing {
        entity,
        multiplier: 1,
        energy: set,
        spinning: 0,
        non_spinning: 0,
        thirty_minute: 0,
    }
}

// A resource with an energy offer and what belongs to it: prices by run.
pub fn energy_resource(
    standing: Standing,
    offer: Row,
    reference: Row,
    quantity: Option<u32>,
    prices: [Option<i32>; 3],
) -> Resource
    ensures { result ≡ energy_resource_of standing offer reference quantity prices }
{
    let mut by_run = [None; 12];
    by_run[..3].copy_from_slice(&prices);
    Resource {
        standing: Some(standing),
        offer: only_energy(offer),
        reference: only_energy(reference),
        quantities: [quantity, None, None, None],
        prices: by_run,
        ..Resource::empty()
    }
}
