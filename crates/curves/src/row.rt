// A row of the table, where a curve is kept.
ghost use Rattle.std.specs.Prelude.{◌≡◌};
ghost use Rattle.curves.specs.Rows.{empty_row};

use crate::step::Step;

// The first `count` of the steps; an empty row has none.
#[derive(Clone, Copy)]
pub struct Row {
    pub steps: [Step; 20],
    pub count: usize,
}

impl Row {
    pub fn empty() -> Row
        ensures { result ≡ empty_row }
    {
        Row {
            steps: [Step { price: 0, end: 0 }; 20],
            count: 0,
        }
    }
}
