// Figures on an energy offer in a broad constrained area: which steps pass, and what the offer becomes.
ghost use Rattle.std.specs.Prelude.{◌≡◌};
ghost use Rattle.std.specs.Option.{option_map};
ghost use Rattle.curves.specs.Curves.{steps_of};
ghost use Rattle.worked.specs.CurveFigures.{lines as lines_of, resource as resource_of, passes_beside, passes as passes_of, becomes as becomes_of};

use crate::hour::{Steps, energy_resource, standing};
use bounds::ceiling::Ceiling;
use bounds::exemption::Exemption;
use bounds::line::Line;
use curves::curve::Curve;
use curves::row::Row;
use curves::step::Step;
use kinds::curve_kind::Curves;
use verdicts::mitigation::mitigated_curve;
use verdicts::places::standard;
use vocabulary::condition::Condition;
use vocabulary::lines::{Lines, Terms, line};
use vocabulary::product::Product;
use vocabulary::resource::Resource;
use vocabulary::test::Test;

// An offer and its reference, the prices as offered and at reference levels, and what should come of them.
#[derive(Clone, Copy)]
pub struct CurveFigure {
    pub offer: Steps,
    pub reference: Steps,
    pub as_offered: Option<i32>,
    pub reference_level: Option<i32>,
    pub passes: [bool; 4],
    pub becomes: Steps,
}

// Energy curves at 300 percent and $100, energy impact at 100 percent and $50.
fn lines() -> Lines
    ensures { result ≡ lines_of }
{
    let mut lines = [None; 50];
    lines[20] = Some(Terms {
        percent: 300,
        cap: 10_000,
        floor: 0,
    });
    lines[26] = Some(Terms {
        percent: 100,
        cap: 5000,
        floor: 0,
    });
    lines
}

fn passes_beside(line: Option<Line>, reference: Option<Curve>, step: Step) -> Option<bool>
    ensures { result ≡ passes_beside line (option_map steps_of reference) step }
{
    Some(standard().curves.step_passes(&line?, &reference?, &step))
}

impl CurveFigure {
    fn resource(&self) -> Resource
        ensures { result ≡ resource_of self.now }
    {
        let prices = [self.as_offered, self.reference_level, None];
        energy_resource(
            standing(0, 4),
            self.offer.row(),
            self.reference.row(),
            None,
            prices,
        )
    }

    // Whether a step passes, where there are a line and a reference.
    pub fn step_passes(&self, step: Step) -> Option<bool>
        ensures { result ≡ passes_of self.now step }
    {
        let line = line(&lines(), Some(Condition::Broad), Test::EnergyCurve);
        passes_beside(line, Curve::of_row(self.reference.row(), 20), step)
    }

    // What the offer becomes.
    pub fn mitigated(&self) -> Option<Curve>
        ensures { option_map steps_of result ≡ becomes_of self.now }
    {
        let places = standard();
        mitigated_curve(
            &places.curves,
            &places.impact,
            &lines(),
            &self.resource(),
            Product::Energy,
        )
    }
}
