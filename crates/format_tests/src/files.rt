// Files: their first five bytes, entries cut short, and which fault is told.
#[cfg(test)]
mod tests {
    use crate::asked::file_fault;
    use bodies::amounts::read_price;
    use entries::cursor::Cursor;
    use entries::entry::Entry;
    use entries::reader::next_entry;
    use std::test::Fail;

    #[test]
    fn first_bytes(rt: HostRuntime) {
        assert_eq!(rt; file_fault(b""), (1, 0));
        assert_eq!(rt; file_fault(b"M"), (1, 0));
        assert_eq!(rt; file_fault(b"MPM\0"), (1, 0));
        assert_eq!(rt; file_fault(b"MPM\0\x01"), (0, 0));
        assert_eq!(rt; file_fault(b"MPN\0\x01"), (2, 0));
        assert_eq!(rt; file_fault(b"MPM\0\x02"), (2, 0));
        assert_eq!(rt; file_fault(b"MPM\x01\x01"), (2, 0));
    }

    #[test]
    fn cut_short(rt: HostRuntime) {
        let file = b"MPM\0\x01\x06\0\0\0\x04\0\0\0\x05";
        assert_eq!(rt; file_fault(file), (0, 0));
        assert_eq!(rt; file_fault(&file[0..6]), (1, 5));
        assert_eq!(rt; file_fault(&file[0..9]), (1, 5));
        assert_eq!(rt; file_fault(&file[0..13]), (1, 5));
    }

    #[test]
    fn second_entry(rt: HostRuntime) {
        assert_eq!(rt;
            file_fault(b"MPM\0\x01\x06\0\0\0\x04\0\0\0\x05\x08\0\0\0\0"),
            (3, 14)
        );
        assert_eq!(rt;
            file_fault(b"MPM\0\x01\x06\0\0\0\x04\0\0\0\x05\x06"),
            (1, 14)
        );
    }

    #[test]
    fn first_entry_decides(rt: HostRuntime) {
        assert_eq!(rt;
            file_fault(b"MPM\0\x01\x05\0\0\0\x04\xff\xff\xff\xff\x08\0\0\0\0"),
            (6, 5)
        );
    }

    #[test]
    fn price_read(rt: HostRuntime) -> Result<(), Fail> {
        let file = b"MPM\0\x01\x06\x1f\x0b\0\x04\xff\xff\xff\xfe";
        let mut cursor = Cursor::at_first(file);
        let Ok(
            Some(
                Entry::Price {
                    resource,
                    run,
                    body,
                    place,
                },
            ),
        ) = next_entry(file, &mut cursor)
        else {
            return Err(Fail::new("no price"));
        };
        assert!(rt; resource == 31 && run == 11 && place == 5);
        assert!(rt; cursor.at == 14 && cursor.limit == 14);
        assert_eq!(rt; read_price(body), Ok(-2));
        Ok(())
    }
}
