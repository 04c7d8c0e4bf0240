// Ranges: the last number inside each, and the first outside.
#[cfg(test)]
mod tests {
    use crate::asked::posted_fault;
    use bodies::numbers::number_bytes;

    fn number_fault(kind: u8, sub: u8, value: i32) -> u8 {
        let [a, b, c, d] = number_bytes(value);
        posted_fault(&[kind, 0, sub, 0, 4, a, b, c, d])
    }

    fn line_fault(test: u8, percent: i32, cap: i32, floor: i32) -> u8 {
        let [a, b, c, d] = number_bytes(percent);
        let [e, f, g, h] = number_bytes(cap);
        let [i, j, k, l] = number_bytes(floor);
        posted_fault(&[1, 0, test, 0, 12, a, b, c, d, e, f, g, h, i, j, k, l])
    }

    #[test]
    fn prices(rt: HostRuntime) {
        assert_eq!(rt; number_fault(6, 0, -10_001), 6);
        assert_eq!(rt; number_fault(6, 0, -10_000), 0);
        assert_eq!(rt; number_fault(6, 0, 200_000), 0);
        assert_eq!(rt; number_fault(6, 0, 200_001), 6);
    }

    #[test]
    fn quantities(rt: HostRuntime) {
        assert_eq!(rt; number_fault(5, 0, -1), 6);
        assert_eq!(rt; number_fault(5, 0, 0), 0);
        assert_eq!(rt; number_fault(5, 0, 100_000), 0);
        assert_eq!(rt; number_fault(5, 0, 100_001), 6);
    }

    #[test]
    fn amounts(rt: HostRuntime) {
        assert_eq!(rt; number_fault(3, 4, -1), 6);
        assert_eq!(rt; number_fault(3, 4, 100_000_000), 0);
        assert_eq!(rt; number_fault(3, 4, 100_000_001), 6);
        assert_eq!(rt; number_fault(4, 5, 100_000_000), 0);
        assert_eq!(rt; number_fault(4, 5, 100_000_001), 6);
        assert_eq!(rt; number_fault(3, 6, 24), 0);
        assert_eq!(rt; number_fault(3, 6, 25), 6);
        assert_eq!(rt; number_fault(3, 7, 10_000), 0);
        assert_eq!(rt; number_fault(3, 7, 10_001), 6);
    }

    #[test]
    fn lines(rt: HostRuntime) {
        assert_eq!(rt; line_fault(0, 1_000, 100_000_000, -10_000), 0);
        assert_eq!(rt; line_fault(0, 1_001, 0, 0), 6);
        assert_eq!(rt; line_fault(0, -1, 0, 0), 6);
        assert_eq!(rt; line_fault(0, 0, 100_000_001, 0), 6);
        assert_eq!(rt; line_fault(1, 0, 0, 200_000), 0);
        assert_eq!(rt; line_fault(1, 0, 0, 200_001), 6);
        assert_eq!(rt; line_fault(1, 0, 0, -10_001), 6);
        assert_eq!(rt; line_fault(2, 0, 0, 0), 0);
        assert_eq!(rt; line_fault(2, 0, 0, 1), 6);
        assert_eq!(rt; line_fault(9, 0, 0, -1), 6);
    }

    #[test]
    fn standings(rt: HostRuntime) {
        assert_eq!(rt; posted_fault(&[2, 0, 0, 0, 6, 15, 9, 15, 16, 0, 16]), 0);
        assert_eq!(rt; posted_fault(&[2, 0, 0, 0, 6, 16, 9, 0, 0, 0, 0]), 6);
        assert_eq!(rt; posted_fault(&[2, 0, 0, 0, 6, 0, 0, 0, 0, 0, 0]), 6);
        assert_eq!(rt; posted_fault(&[2, 0, 0, 0, 6, 0, 10, 0, 0, 0, 0]), 6);
        assert_eq!(rt; posted_fault(&[2, 0, 0, 0, 6, 0, 1, 17, 0, 0, 0]), 6);
        assert_eq!(rt; posted_fault(&[2, 0, 0, 0, 6, 0, 1, 0, 17, 0, 0]), 6);
        assert_eq!(rt; posted_fault(&[2, 0, 0, 0, 6, 0, 1, 0, 0, 17, 0]), 6);
        assert_eq!(rt; posted_fault(&[2, 0, 0, 0, 6, 0, 1, 0, 0, 0, 17]), 6);
    }
}
