// Readings of the rules that would give wrong money, each pinned by a test.
#![tactic(auto)]

#[cfg(test)]
mod tests {
    use curves::step::Step;
    use std::test::Fail;
    use vocabulary::verdict::Verdict;
    use worked::hour::Steps;
    use worked::list::{Figure, figures};
    use worked::quantity_figure::{Held, QuantityFigure};

    const NONE: Step = Step { price: 0, end: 0 };

    fn sisters() -> Result<QuantityFigure, Fail> {
        match figures()[11] {
            Figure::Quantity(figure) => Ok(figure),
            _ => Err(Fail::new("figure 12 is on quantities")),
        }
    }

    // $70 from 75 to 120 MW is held against $45, the reference price at 120, and not against $15, that at 75.
    #[test]
    fn a_step_is_tested_at_its_end(rt: HostRuntime) -> Result<(), Fail> {
        let Figure::Curve(figure) = figures()[5] else {
            return Err(Fail::new("figure 6 is on a curve"));
        };
        assert!(rt;
            figure.step_passes(Step {
                price: 7000,
                end: 1200,
            }) == Some(true)
        );
        assert!(rt;
            figure.step_passes(Step {
                price: 7000,
                end: 750,
            }) == Some(false)
        );
        Ok(())
    }

    // 50 of 90 MW fails alone. The other sister's 217 of 220 is 3 MW short and passes; 267 of 310 would not.
    #[test]
    fn a_member_that_fails_alone_leaves_the_sum(rt: HostRuntime) -> Result<(), Fail> {
        let figure = sisters()?;
        let offer = Steps {
            list: [
                Step {
                    price: 3000,
                    end: 500,
                },
                NONE,
                NONE,
                NONE,
            ],
            count: 1,
        };
        let second = Held {
            offer,
            reference: Some(900),
            owes: 0,
        };
        let found = QuantityFigure { second, ..figure }.found();
        assert!(rt; found[1].verdicts.resource == Verdict::Failed);
        assert!(rt; found[1].verdicts.entity == Verdict::NotTested);
        assert!(rt; found[0].verdicts.entity == Verdict::Passed);
        assert!(rt; found[0].charge == 0);
        Ok(())
    }

    // The first sister's verdict follows the second's quantity there and back.
    #[test]
    fn a_sisters_verdict_is_never_left_old(rt: HostRuntime) -> Result<(), Fail> {
        let figure = sisters()?;
        assert!(rt; figure.found()[0].verdicts.entity == Verdict::Failed);
        let gone = Held {
            reference: None,
            ..figure.second
        };
        assert!(rt;
            QuantityFigure {
                second: gone,
                ..figure
            }
            .found()[0]
                .verdicts
                .entity
                == Verdict::Passed
        );
        assert!(rt; figure.found()[0].verdicts.entity == Verdict::Failed);
        Ok(())
    }
}
