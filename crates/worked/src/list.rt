// The twelve worked figures, as data.
ghost use Rattle.std.specs.Prelude.{◌≡◌};
ghost use Rattle.curves.specs.Steps.{step};
ghost use Rattle.worked.specs.Figures.{offer as offer_of, reference as reference_of, curve as curve_of, one_alone as one_alone_of, two_sisters as two_sisters_of, figures as figures_of, AllHold};

use crate::bound_figure::{Asked, BoundFigure};
use crate::curve_figure::CurveFigure;
use crate::hour::Steps;
use crate::quantity_figure::{Held, QuantityFigure};
use curves::step::Step;
use vocabulary::condition::Condition;
use vocabulary::lines::Terms;
use vocabulary::verdict::Verdict;

#[derive(Clone, Copy)]
pub enum Figure {
    Bound(BoundFigure),
    Curve(CurveFigure),
    Quantity(QuantityFigure),
}

const NONE: Step = Step { price: 0, end: 0 };

// A step at a price, to where it ends.
fn to(price: i32, end: u32) -> Step
    ensures { result ≡ step price end }
{
    Step { price, end }
}

// $19, $35, $40 and $800, the last to where the offer ends.
fn offer(end: u32) -> Steps
    ensures { result ≡ offer_of end }
{
    Steps {
        list: [
            to(1900, 500),
            to(3500, 750),
            to(4000, 1200),
            to(80_000, end),
        ],
        count: 4,
    }
}

// $5, $15 and $45, the last to where the reference ends.
fn reference(end: u32) -> Steps
    ensures { result ≡ reference_of end }
{
    Steps {
        list: [to(500, 500), to(1500, 1000), to(4500, end), NONE],
        count: 3,
    }
}

const BROAD: BoundFigure = BoundFigure {
    asked: Asked::Ceiling,
    percent: 300,
    cap: 10_000,
    floor: 0,
    reference: 500,
    passes: 2000,
    fails: 2001,
};

const NARROW: BoundFigure = BoundFigure {
    asked: Asked::Ceiling,
    percent: 50,
    cap: 2500,
    floor: 0,
    reference: 700,
    passes: 1050,
    fails: 1100,
};

const SHORTFALL: BoundFigure = BoundFigure {
    asked: Asked::Shortfall,
    percent: 10,
    cap: 100,
    floor: 0,
    reference: 900,
    passes: 810,
    fails: 809,
};

// The offer that ends there, of which only the last step fails.
fn curve(end: u32, as_offered: Option<i32>, reference_level: Option<i32>, becomes: Steps) -> Figure
    ensures { result ≡ curve_of end as_offered reference_level becomes }
{
    Figure::Curve(CurveFigure {
        offer: offer(end),
        reference: reference(1500),
        as_offered,
        reference_level,
        passes: [true, true, true, false],
        becomes,
    })
}

// 75 MW offered of 90 in a broad constrained area.
fn one_alone() -> QuantityFigure
    ensures { result ≡ one_alone_of }
{
    QuantityFigure {
        condition: Condition::Broad,
        set: 4,
        impact: Terms {
            percent: 100,
            cap: 5000,
            floor: 0,
        },
        alone: Terms {
            percent: 10,
            cap: 100_000,
            floor: 0,
        },
        together: None,
        entity: 0,
        first: Held {
            offer: Steps {
                list: [to(3000, 500), to(4000, 600), to(5000, 750), NONE],
                count: 3,
            },
            reference: Some(900),
            owes: 8_100_000,
        },
        second: Held {
            offer: Steps {
                list: [NONE, NONE, NONE, NONE],
                count: 0,
            },
            reference: None,
            owes: 0,
        },
        as_offered: 18_000,
        reference_quantity: 7000,
        resource_verdict: Verdict::Failed,
        entity_verdict: Verdict::NotTested,
    }
}

// 217 of 220 and 87 of 90 MW, sisters in a narrow constrained area.
fn two_sisters() -> QuantityFigure
    ensures { result ≡ two_sisters_of }
{
    QuantityFigure {
        condition: Condition::Narrow,
        set: 1,
        impact: Terms {
            percent: 50,
            cap: 2500,
            floor: 0,
        },
        alone: Terms {
            percent: 10,
            cap: 50,
            floor: 0,
        },
        together: Some(Terms {
            percent: 10,
            cap: 50,
            floor: 0,
        }),
        entity: 1,
        first: Held {
            offer: Steps {
                list: [to(3000, 2170), NONE, NONE, NONE],
                count: 1,
            },
            reference: Some(2200),
            owes: 1_620_000,
        },
        second: Held {
            offer: Steps {
                list: [to(3000, 870), NONE, NONE, NONE],
                count: 1,
            },
            reference: Some(900),
            owes: 1_620_000,
        },
        as_offered: 18_000,
        reference_quantity: 7000,
        resource_verdict: Verdict::Passed,
        entity_verdict: Verdict::Failed,
    }
}

// The list of figures; each holds by the rules alone.
pub fn figures() -> [Figure; 12]
    ensures list { result ≡ figures_of }
    ensures hold { AllHold }
{
    [
        Figure::Bound(BROAD),
        Figure::Bound(BoundFigure {
            reference: 4500,
            passes: 14_500,
            fails: 14_501,
            ..BROAD
        }),
        Figure::Bound(NARROW),
        Figure::Bound(BoundFigure {
            reference: -2000,
            passes: -2000,
            fails: -1999,
            ..NARROW
        }),
        Figure::Bound(BoundFigure {
            asked: Asked::Exemption,
            floor: 500,
            reference: 100,
            passes: 499,
            fails: 500,
            ..NARROW
        }),
        curve(1500, None, None, offer(1500)),
        curve(1500, Some(80_000), Some(4500), reference(1500)),
        curve(1500, Some(9000), Some(4500), offer(1500)),
        curve(2000, Some(80_000), Some(4500), reference(2000)),
        Figure::Bound(SHORTFALL),
        Figure::Quantity(one_alone()),
        Figure::Quantity(two_sisters()),
    ]
}
