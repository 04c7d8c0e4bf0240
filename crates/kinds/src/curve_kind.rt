// Curves: each step is asked of the bound that the kind holds.
ghost use Rattle.std.specs.Prelude.{◌≡◌, ◌-◌, ◌≤◌, List, if◌then◌else◌};
ghost use Rattle.curves.specs.declared.step.Step.{Step};
ghost use Rattle.curves.specs.Curves.{steps_of};
ghost use Rattle.curves.specs.Steps.{last_end, substitute as substitute_of};
ghost use Rattle.kinds.specs.Conduct.{step_passes, all_pass, failed_widths};
ghost use Rattle.kinds.specs.Passing.{harmless_self, substitute_passes, substitute_again};

use crate::kind::Kind;
use bounds::bound::Bound;
use bounds::line::Line;
use curves::curve::Curve;
use curves::step::Step;

#[derive(Clone, Copy)]
pub struct Curves<B> {
    pub bound: B,
}

impl<B: Bound> Kind for Curves<B> {
    type Value = Curve;

    ghost Content = { List Step };

    ghost content = { steps_of };

    ghost test = { λ k l. all_pass (B.Bound.meaning k.bound l) };

    ghost substitute = { λ _ r v. substitute_of r (last_end v) };

    ghost settled = { λ k l r v. substitute_passes (B.Bound.meaning k.bound l) (λ x. B.Bound.spares k.bound l x x (harmless_self _ x)) (steps_of r) (last_end (steps_of v)) r.ordered };

    ghost steady = { λ k r v. substitute_again (steps_of r) (last_end (steps_of v)) };

    fn passes(&self, line: &Line, reference: &Curve, offer: &Curve) -> bool {
        offer
            .steps()
            .iter()
            .all(|step| self.step_passes(line, reference, step))
    }

    fn replace(&self, reference: &Curve, offer: &Curve) -> Curve {
        reference.substitute(offer)
    }
}

impl<B: Bound> Curves<B> {
    // One step, against the reference price where it ends.
    pub fn step_passes(&self, line: &Line, reference: &Curve, step: &Step) -> bool
        ensures { result ≡ step_passes (B.Bound.meaning self.now.bound line.now) (steps_of reference.now) step.now }
    {
        self.bound
            .passes(line, reference.price_at(step.end), step.price)
    }

    // What a step adds to the widths that fail, where the step before ends.
    fn failed_width(&self, line: &Line, reference: &Curve, before: u32, step: &Step) -> u32
        ensures { result ≡ (if step_passes (B.Bound.meaning self.now.bound line.now) (steps_of reference.now) step.now then 0 else step.now.end - before) }
    {
        if self.step_passes(line, reference, step) {
            0
        } else {
            step.end.saturating_sub(before)
        }
    }

    // The widths of the steps that fail, added up.
    #[tactic(auto, using(crate::proofs::Steps::widths_small))]
    pub fn failed_widths(&self, line: &Line, reference: &Curve, offer: &Curve) -> u32
        ensures value { result ≡ failed_widths (B.Bound.meaning self.now.bound line.now) (steps_of reference.now) 0 (steps_of offer.now) }
        ensures small { result ≤ 100000 }
    {
        let mut before = 0;
        let mut sum = 0;
        for step in offer.steps() {
            sum += self.failed_width(line, reference, before, step);
            before = step.end;
        }
        sum
    }
}
