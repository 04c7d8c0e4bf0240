// The answer to a question on one resource.
ghost use Rattle.std.specs.Prelude.{◌≡◌};
ghost use Rattle.answers.specs.Answers.{nothing_found};

use vocabulary::verdict::Verdict;

// A verdict on each parameter's conduct, four verdicts on each product, and a charge for each product in
// twentieths of a cent; each rises by number.
#[derive(Clone, Copy)]
pub struct Answer {
    pub conduct: [Verdict; 8],
    pub impact: [Verdict; 4],
    pub resource: [Verdict; 4],
    pub entity: [Verdict; 4],
    pub quantity_impact: [Verdict; 4],
    pub charges: [u64; 4],
}

impl Answer {
    // Nothing is tested, and nothing owed.
    pub fn nothing() -> Answer
        ensures { result ≡ nothing_found }
    {
        Answer {
            conduct: [Verdict::NotTested; 8],
            impact: [Verdict::NotTested; 4],
            resource: [Verdict::NotTested; 4],
            entity: [Verdict::NotTested; 4],
            quantity_impact: [Verdict::NotTested; 4],
            charges: [0; 4],
        }
    }
}
