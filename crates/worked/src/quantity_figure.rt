// Figures on output that is held back, by one resource or by two sisters.
ghost use Rattle.std.specs.Prelude.{◌≡◌};
ghost use Rattle.worked.specs.QuantityFigures.{lines as lines_of, resource as resource_of, table as table_of, found as found_of};

use crate::hour::{Steps, energy_resource, standing};
use bounds::ceiling::Ceiling;
use bounds::exemption::Exemption;
use bounds::shortfall::Shortfall;
use charges::finding::Finding;
use charges::group::shares;
use curves::row::Row;
use verdicts::places::standard;
use vocabulary::condition::Condition;
use vocabulary::lines::{Lines, Terms};
use vocabulary::product::Product;
use vocabulary::resource::Resource;
use vocabulary::verdict::Verdict;

// An offer, its reference quantity, and what the resource should owe in twentieths of a cent.
#[derive(Clone, Copy)]
pub struct Held {
    pub offer: Steps,
    pub reference: Option<u32>,
    pub owes: u64,
}

// The lines of impact, resource quantity and entity quantity under one condition, resources 0 and 1 of one entity,
// the prices as offered and at reference quantities, and the quantity verdicts that should come of them.
#[derive(Clone, Copy)]
pub struct QuantityFigure {
    pub condition: Condition,
    pub set: u8,
    pub impact: Terms,
    pub alone: Terms,
    pub together: Option<Terms>,
    pub entity: u8,
    pub first: Held,
    pub second: Held,
    pub as_offered: i32,
    pub reference_quantity: i32,
    pub resource_verdict: Verdict,
    pub entity_verdict: Verdict,
}

impl QuantityFigure {
    fn lines(&self) -> Lines
        ensures { result ≡ lines_of self.now }
    {
        let mut lines = [None; 50];
        let base = 10 * self.condition.number();
        lines[base + 6] = Some(self.impact);
        lines[base + 8] = Some(self.alone);
        lines[base + 9] = self.together;
        lines
    }

    fn resource(&self, held: Held) -> Resource
        ensures { result ≡ resource_of self.now held }
    {
        let prices = [Some(self.as_offered), None, Some(self.reference_quantity)];
        energy_resource(
            standing(self.entity, self.set),
            held.offer.row(),
            Row::empty(),
            held.reference,
            prices,
        )
    }

    fn table(&self) -> [Resource; 32]
        ensures { result ≡ table_of self.now }
    {
        let mut table = [Resource::empty(); 32];
        table[0] = self.resource(self.first);
        table[1] = self.resource(self.second);
        table
    }

    // What is found of the energy of the two resources.
    pub fn found(&self) -> [Finding; 2]
        ensures { result ≡ found_of self.now }
    {
        let places = standard();
        let lines = self.lines();
        let table = self.table();
        let shares = shares(&places.quantities, &lines, &table, Product::Energy);
        let first = Finding::of(&places, &lines, &table, &shares, Product::Energy, 0);
        let second = Finding::of(&places, &lines, &table, &shares, Product::Energy, 1);
        [first, second]
    }
}
