// Lengths: bodies that do not suit their slot, and bytes after a posted entry.
#[cfg(test)]
mod tests {
    use crate::asked::posted_fault;

    #[test]
    fn short_posts(rt: HostRuntime) {
        assert_eq!(rt; posted_fault(&[]), 1);
        assert_eq!(rt; posted_fault(&[8, 0, 0, 0]), 1);
        assert_eq!(rt; posted_fault(&[6, 0, 0, 0, 4, 0, 0, 0]), 1);
    }

    #[test]
    fn unsuited(rt: HostRuntime) {
        assert_eq!(rt;
            posted_fault(&[1, 0, 0, 0, 11, 0, 0, 0, 0, 0, 0, 0, 0, 0, 0, 0]),
            5
        );
        assert_eq!(rt;
            posted_fault(&[1, 0, 0, 0, 13, 0, 0, 0, 0, 0, 0, 0, 0, 0, 0, 0, 0, 0]),
            5
        );
        assert_eq!(rt; posted_fault(&[2, 0, 0, 0, 5, 0, 1, 0, 0, 0]), 5);
        assert_eq!(rt; posted_fault(&[3, 0, 0, 0, 4, 0, 0, 0, 1]), 5);
        assert_eq!(rt; posted_fault(&[3, 0, 4, 0, 8, 0, 0, 0, 0, 0, 0, 0, 1]), 5);
        assert_eq!(rt; posted_fault(&[5, 0, 0, 0, 3, 0, 0, 0]), 5);
        assert_eq!(rt; posted_fault(&[6, 0, 0, 0, 5, 0, 0, 0, 0, 0]), 5);
    }

    #[test]
    fn bytes_after(rt: HostRuntime) {
        assert_eq!(rt; posted_fault(&[6, 0, 0, 0, 4, 0, 0, 0, 0, 0]), 5);
        assert_eq!(rt; posted_fault(&[6, 0, 0, 0, 4, 127, 0, 0, 0, 0]), 5);
        assert_eq!(rt; posted_fault(&[6, 0, 12, 0, 4, 0, 0, 0, 0, 0]), 4);
    }

    // A remark whose head names so many bytes, all of them there.
    fn remark_fault(count: u8) -> u8 {
        let mut bytes = [b'x'; 260];
        bytes[0] = 7;
        bytes[1] = 0;
        bytes[2] = 0;
        bytes[3] = 0;
        bytes[4] = count;
        posted_fault(&bytes[0..5 + count as usize])
    }

    #[test]
    fn remarks(rt: HostRuntime) {
        assert_eq!(rt; remark_fault(0), 5);
        assert_eq!(rt; remark_fault(1), 0);
        assert_eq!(rt; remark_fault(120), 0);
        assert_eq!(rt; remark_fault(121), 5);
    }
}
