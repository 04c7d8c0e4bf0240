// Heads: kinds, resources and subs past the last.
#[cfg(test)]
mod tests {
    use crate::asked::posted_fault;

    #[test]
    fn kinds(rt: HostRuntime) {
        assert_eq!(rt; posted_fault(&[0, 0, 0, 0, 0]), 3);
        assert_eq!(rt; posted_fault(&[8, 0, 0, 0, 0]), 3);
        assert_eq!(rt; posted_fault(&[8, 32, 0, 0, 0, 1]), 3);
        assert_eq!(rt; posted_fault(&[7, 0, 0, 0, 1, 255]), 0);
    }

    #[test]
    fn resources(rt: HostRuntime) {
        assert_eq!(rt; posted_fault(&[7, 31, 0, 0, 1, 1]), 0);
        assert_eq!(rt; posted_fault(&[7, 32, 0, 0, 1, 1]), 4);
        assert_eq!(rt; posted_fault(&[6, 31, 0, 0, 4, 0, 0, 0, 0]), 0);
        assert_eq!(rt; posted_fault(&[6, 32, 0, 0, 4, 0, 0, 0, 0]), 4);
    }

    #[test]
    fn lines(rt: HostRuntime) {
        assert_eq!(rt;
            posted_fault(&[1, 4, 9, 0, 12, 0, 0, 0, 0, 0, 0, 0, 0, 0, 0, 0, 0]),
            0
        );
        assert_eq!(rt;
            posted_fault(&[1, 5, 9, 0, 12, 0, 0, 0, 0, 0, 0, 0, 0, 0, 0, 0, 0]),
            4
        );
        assert_eq!(rt;
            posted_fault(&[1, 4, 10, 0, 12, 0, 0, 0, 0, 0, 0, 0, 0, 0, 0, 0, 0]),
            4
        );
    }

    #[test]
    fn subs(rt: HostRuntime) {
        assert_eq!(rt; posted_fault(&[2, 0, 1, 0, 6, 0, 1, 0, 0, 0, 0]), 4);
        assert_eq!(rt; posted_fault(&[3, 0, 7, 0, 4, 0, 0, 0, 0]), 0);
        assert_eq!(rt; posted_fault(&[3, 0, 8, 0, 4, 0, 0, 0, 0]), 4);
        assert_eq!(rt; posted_fault(&[4, 0, 8, 0, 4, 0, 0, 0, 0]), 4);
        assert_eq!(rt; posted_fault(&[5, 0, 3, 0, 4, 0, 0, 0, 0]), 0);
        assert_eq!(rt; posted_fault(&[5, 0, 4, 0, 4, 0, 0, 0, 0]), 4);
        assert_eq!(rt; posted_fault(&[6, 0, 11, 0, 4, 0, 0, 0, 0]), 0);
        assert_eq!(rt; posted_fault(&[6, 0, 12, 0, 4, 0, 0, 0, 0]), 4);
        assert_eq!(rt; posted_fault(&[7, 0, 1, 0, 1, 0]), 4);
    }
}
