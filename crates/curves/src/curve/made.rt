// Curves made from rows, and rows from curves.
ghost use Rattle.std.specs.Prelude.{◌≡◌, ◌≤◌, IfSome};
ghost use Rattle.std.specs.Option.{option_map};
ghost use Rattle.curves.specs.Curves.{steps_of};
ghost use Rattle.curves.specs.Rows.{row_steps, holds_curve, curve_in};
ghost use Rattle.curves.specs.Steps.{last_end};

use super::Curve;
use crate::order::in_order;
use crate::row::Row;

#[tactic(auto, using(std::proofs::lemmas::Grind::common_steps, crate::proofs::Walks::last_end_at))]
fn holds_curve(row: &Row, limit: usize) -> bool
    ensures { result ≡ holds_curve limit row.now }
{
    (1..=limit).contains(&row.count)
        && limit <= 20
        && row.steps[row.count - 1].end <= 100_000
        && in_order(&row.steps[..row.count])
}

// Where the curve that a row holds ends; none without one.
#[tactic(auto, using(crate::proofs::Walks::last_end_at))]
pub fn end_in(row: &Row, limit: usize) -> Option<u32>
    ensures value { result ≡ option_map last_end (curve_in limit row.now) }
    ensures small { IfSome result (λ end. end ≤ 100000) }
{
    holds_curve(row, limit).then(|| row.steps[row.count - 1].end)
}

impl Curve {
    // The curve that a row holds; none where the row is empty or its steps are no curve of so many.
    pub fn of_row(row: Row, limit: usize) -> Option<Curve>
        ensures steps { option_map steps_of result ≡ curve_in limit row }
        ensures limits { IfSome result (λ c. c.limit ≡ limit) }
    {
        if holds_curve(&row, limit) {
            Some(Curve {
                steps: row.steps,
                count: row.count,
                limit,
            })
        } else {
            None
        }
    }

    pub fn row(&self) -> Row
        ensures steps { row_steps result ≡ steps_of self.now }
        ensures count { result.count ≡ self.now.count }
    {
        Row {
            steps: self.steps,
            count: self.count,
        }
    }
}
