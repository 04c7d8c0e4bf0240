// What is found of every resource that has a standing.
ghost use Rattle.std.specs.Prelude.{◌≡◌, ℕ, ◌^◌, ◌<◌, IfSome, None, slice_index_or, sum};
ghost use Rattle.vocabulary.specs.Readings.{lines_of};
ghost use Rattle.charges.specs.Tables.{owns_of};
ghost use Rattle.answers.specs.Answers.{listed as listed_of};
ghost use Rattle.answers.specs.Shares.{Shared};

use crate::answer::Answer;
use crate::question::answer;
use crate::shares::Shares;
use charges::rules::Rules;
use vocabulary::lines::Lines;
use vocabulary::resource::Resource;

// What is found of each resource in turn; none of one without a standing.
pub fn listed<R: Rules>(rules: &R, lines: &Lines, table: &[Resource; 32]) -> [Option<Answer>; 32]
    ensures value { (k : ℕ) → k < 32 → slice_index_or result k None ≡ listed_of (R.meanings rules.now) (lines_of lines.now) (owns_of table.now) k }
    ensures small { (k : ℕ) → k < 32 → IfSome (slice_index_or result k None) (λ a. sum a.charges < 2 ^ 64) }
{
    let shares = Shares::of(&rules.places().quantities, lines, table);
    let mut answers = [None; 32];
    for (i, resource) in table.iter().enumerate() {
        answers[i] = resource
            .standing
            .map(|_| answer(rules, lines, table, &shares, i));
    }
    answers
}
