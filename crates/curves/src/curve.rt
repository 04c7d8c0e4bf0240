// A curve, which keeps its order wherever it goes.
ghost use Rattle.std.specs.Prelude.{◌≡◌, ◌≤◌, true, length, take};
ghost use Rattle.curves.specs.Steps.{in_order, last_end};

pub mod asked;
pub mod made;

use crate::step::Step;

// The first `count` of the steps: ends rise, prices never fall, the last end is a quantity that may be offered.
#[derive(Clone, Copy)]
pub struct Curve {
    steps: [Step; 20],
    count: usize,
    limit: usize,
    ghost whole: { length steps ≡ 20 },
    ghost some: { 1 ≤ count },
    ghost few: { count ≤ limit },
    ghost room: { limit ≤ 20 },
    ghost ordered: { in_order (take count steps) ≡ true },
    ghost small: { last_end (take count steps) ≤ 100000 },
}
