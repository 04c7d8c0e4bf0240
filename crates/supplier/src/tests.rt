// The supplied bound asked through generic code, by itself and under a layer.
#[cfg(test)]
mod asked {
    use crate::{Margin, allows};
    use bounds::bound::Bound;
    use bounds::ceiling::Ceiling;
    use bounds::exemption::Exemption;
    use bounds::line::Line;
    use bounds::shortfall::Shortfall;
    use bounds::side::Side;
    use std::test::Fail;

    fn passing<B: Bound>(bound: &B, line: &Line, values: [i32; 3]) -> [bool; 3] {
        values.map(|value| bound.passes(line, 1000, value))
    }

    #[test]
    fn margin_under_a_layer(rt: HostRuntime) -> Result<(), Fail> {
        let line = Line::new(50, 2500, 1100).ok_or_else(|| Fail::new("the line is in range"))?;
        let margin = Margin { cents: 25 };
        assert!(rt; passing(&margin, &line, [1025, 1026, 1100]) == [true, false, false]);
        let exempt = Exemption { under: margin };
        assert!(rt; passing(&exempt, &line, [1026, 1099, 1100]) == [true, true, false]);
        assert!(rt; allows(&exempt, &line, 1000, 1000));
        Ok(())
    }

    // What a layer's constant is, no contract says.
    #[test]
    fn layers_keep_the_side(rt: HostRuntime) {
        assert!(rt; Exemption::<Exemption<Ceiling>>::SIDE == Side::Below);
        assert!(rt; Exemption::<Exemption<Shortfall>>::SIDE == Side::Above);
        assert!(rt; Exemption::<Margin>::SIDE == Side::Below);
        assert!(rt; Exemption::<Margin>::harmless_side() == Exemption::<Margin>::SIDE);
    }
}
