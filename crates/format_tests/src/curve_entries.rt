// Curves: how many steps, their numbers, and their order.
ghost use Rattle.std.specs.Prelude.{◌≤◌};

#[cfg(test)]
mod tests {
    use crate::asked::posted_fault;
    use bodies::numbers::number_bytes;

    // Energy steps to (first, 1) and (second, end).
    fn two_steps(first: i32, second: i32, end: i32) -> u8 {
        let [a, b, c, d] = number_bytes(first);
        let [e, f, g, h] = number_bytes(second);
        let [i, j, k, l] = number_bytes(end);
        posted_fault(&[
            3, 0, 0, 0, 16, a, b, c, d, 0, 0, 0, 1, e, f, g, h, i, j, k, l,
        ])
    }

    // So many steps of a parameter, each at 0 and ending further on than the last.
    fn many_steps(parameter: u8, count: u8) -> u8
        requires { count ≤ 21 }
    {
        let mut bytes = [0; 173];
        bytes[0] = 3;
        bytes[2] = parameter;
        bytes[4] = 8 * count;
        for k in 0..21 {
            bytes[12 + 8 * k] = k as u8 + 1;
        }
        posted_fault(&bytes[0..5 + 8 * count as usize])
    }

    #[test]
    fn counts(rt: HostRuntime) {
        assert_eq!(rt; many_steps(0, 0), 6);
        assert_eq!(rt; many_steps(0, 1), 0);
        assert_eq!(rt; many_steps(0, 20), 0);
        assert_eq!(rt; many_steps(0, 21), 6);
        assert_eq!(rt; many_steps(1, 5), 0);
        assert_eq!(rt; many_steps(1, 6), 6);
        assert_eq!(rt; many_steps(3, 5), 0);
        assert_eq!(rt; many_steps(3, 6), 6);
    }

    #[test]
    fn numbers(rt: HostRuntime) {
        assert_eq!(rt; two_steps(-10_000, 200_000, 100_000), 0);
        assert_eq!(rt; two_steps(-10_001, 0, 2), 6);
        assert_eq!(rt; two_steps(0, 200_001, 2), 6);
        assert_eq!(rt; two_steps(0, 0, 100_001), 6);
        assert_eq!(rt; two_steps(0, 0, 0), 6);
        assert_eq!(rt; two_steps(0, 0, -1), 6);
    }

    #[test]
    fn order(rt: HostRuntime) {
        assert_eq!(rt; two_steps(5, 5, 2), 0);
        assert_eq!(rt; two_steps(5, 5, 1), 7);
        assert_eq!(rt; two_steps(5, 4, 2), 7);
        assert_eq!(rt; two_steps(5, -10_001, 1), 6);
    }
}
