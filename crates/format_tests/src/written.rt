// Entries written and read again.
#[cfg(test)]
mod tests {
    use crate::asked::posted_fault;
    use curves::row::Row;
    use curves::step::Step;
    use entries::head::Head;
    use vocabulary::lines::Terms;
    use vocabulary::resource::Remark;
    use vocabulary::standing::Standing;
    use writers::entry::{
        write_curve, write_line, write_number, write_quantity, write_remark, write_standing,
    };

    #[test]
    fn line(rt: HostRuntime) {
        let terms = Terms {
            percent: 300,
            cap: 10_000,
            floor: -1,
        };
        let mut out = [9; 18];
        let n = write_line(&mut out, 4, 1, &terms);
        assert_eq!(rt; n, 17);
        assert!(rt;
            out == [
                1, 4, 1, 0, 12, 0, 0, 1, 44, 0, 0, 39, 16, 255, 255, 255, 255, 9,
            ]
        );
        assert_eq!(rt; posted_fault(&out[0..17]), 0);
    }

    #[test]
    fn standing(rt: HostRuntime) {
        let standing = Standing {
            entity: 1,
            multiplier: 2,
            energy: 3,
            spinning: 4,
            non_spinning: 5,
            thirty_minute: 6,
        };
        let mut out = [9; 12];
        let n = write_standing(&mut out, 31, &standing);
        assert_eq!(rt; n, 11);
        assert!(rt; out == [2, 31, 0, 0, 6, 1, 2, 3, 4, 5, 6, 9]);
    }

    #[test]
    fn number(rt: HostRuntime) {
        let mut out = [9; 10];
        let head = Head {
            kind: 6,
            first: 30,
            sub: 11,
        };
        let n = write_number(&mut out, head, -2);
        assert_eq!(rt; n, 9);
        assert!(rt; out == [6, 30, 11, 0, 4, 255, 255, 255, 254, 9]);
    }

    #[test]
    fn quantity(rt: HostRuntime) {
        let mut out = [9; 10];
        let n = write_quantity(&mut out, 30, 3, 65_536);
        assert_eq!(rt; n, 9);
        assert!(rt; out == [5, 30, 3, 0, 4, 0, 1, 0, 0, 9]);
    }

    #[test]
    fn curve(rt: HostRuntime) {
        let mut steps = [Step { price: 0, end: 0 }; 20];
        steps[0] = Step { price: -1, end: 10 };
        steps[1] = Step { price: 7, end: 258 };
        let row = Row { steps, count: 2 };
        let mut out = [9; 22];
        let head = Head {
            kind: 4,
            first: 3,
            sub: 0,
        };
        let n = write_curve(&mut out, head, &row);
        assert_eq!(rt; n, 21);
        assert!(rt;
            out == [
                4, 3, 0, 0, 16, 255, 255, 255, 255, 0, 0, 0, 10, 0, 0, 0, 7, 0, 0, 1, 2, 9,
            ]
        );
        assert_eq!(rt; posted_fault(&out[0..21]), 0);
    }

    #[test]
    fn remark(rt: HostRuntime) {
        let mut bytes = [0; 120];
        bytes[0] = b'o';
        bytes[1] = b'k';
        let remark = Remark { bytes, count: 2 };
        let mut out = [9; 8];
        let n = write_remark(&mut out, 12, &remark);
        assert_eq!(rt; n, 7);
        assert!(rt; out == [7, 12, 0, 0, 2, b'o', b'k', 9]);
    }
}
