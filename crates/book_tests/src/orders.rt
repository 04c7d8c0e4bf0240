// Orders of arrival, corrections and refusals.
#[cfg(test)]
mod tests {
    use bodies::fault::{Fault, Refusal};
    use book::book::Book;
    use bounds::ceiling::Ceiling;
    use bounds::exemption::Exemption;
    use bounds::shortfall::Shortfall;
    use histories::call::Call;
    use histories::compare::{compare, write_again};
    use supplier::Margin;
    use verdicts::places::{Places, standard};

    // Resource 3: an energy price of $180 in run 0, then $179; a reference quantity of 90 MW; a remark.
    const PRICE: [u8; 9] = [6, 3, 0, 0, 4, 0, 0, 0x46, 0x50];

    const OTHER_PRICE: [u8; 9] = [6, 3, 0, 0, 4, 0, 0, 0x45, 0xec];

    const QUANTITY: [u8; 9] = [5, 3, 0, 0, 4, 0, 0, 3, 0x84];

    const REMARK: [u8; 7] = [7, 3, 0, 0, 2, b'o', b'k'];

    const NO_SUCH_RESOURCE: [u8; 9] = [6, 32, 0, 0, 4, 0, 0, 0x46, 0x50];

    // The quantity and the price as one file, and a file whose last entry is cut by a byte.
    const FILE: [u8; 23] = [
        b'M', b'P', b'M', 0, 1, 6, 3, 0, 0, 4, 0, 0, 0x46, 0x50, 5, 3, 0, 0, 4, 0, 0, 3, 0x84,
    ];

    const CUT: [u8; 22] = [
        b'M', b'P', b'M', 0, 1, 6, 3, 0, 0, 4, 0, 0, 0x45, 0xec, 5, 3, 0, 0, 4, 0, 0, 3,
    ];

    #[test]
    fn two_orders_end_alike(rt: HostRuntime) {
        let first = [
            Call::Post(&PRICE),
            Call::Post(&QUANTITY),
            Call::Post(&REMARK),
            Call::Close,
        ];
        let second = [
            Call::Post(&REMARK),
            Call::Post(&OTHER_PRICE),
            Call::Post(&NO_SUCH_RESOURCE),
            Call::Load(&CUT),
            Call::Post(&OTHER_PRICE),
            Call::Load(&FILE),
        ];
        let r = compare(standard(), &first, standard(), &second);
        assert!(rt; r.alike);
        assert!(rt; r.first.entries.length == 30 && r.second.entries.length == 30);
    }

    // The first's listing is empty, and a third book takes and writes its mitigated file of 30 bytes.
    #[test]
    fn a_mitigated_file_is_taken(rt: HostRuntime) {
        let calls = [
            Call::Post(&PRICE),
            Call::Post(&QUANTITY),
            Call::Post(&REMARK),
            Call::Close,
        ];
        let r = compare(standard(), &calls, standard(), &[]);
        assert!(rt; r.first.listing.length == 0 && r.taken && r.again.length == 30);
    }

    #[test]
    fn a_correction_that_stays_is_seen(rt: HostRuntime) {
        let first = [Call::Load(&FILE)];
        let second = [Call::Load(&FILE), Call::Post(&OTHER_PRICE)];
        let places = Places::new(Margin { cents: 5 }, Margin { cents: 5 }, Ceiling, Shortfall);
        assert!(rt; !compare(places, &first, standard(), &second).alike);
        let cleared = [
            Call::Load(&FILE),
            Call::Post(&OTHER_PRICE),
            Call::Clear {
                kind: 6,
                first: 3,
                sub: 0,
            },
            Call::Post(&PRICE),
        ];
        assert!(rt; compare(places, &first, standard(), &cleared).alike);
    }

    #[test]
    fn a_load_that_fails_at_its_end_takes_nothing(rt: HostRuntime) {
        let mut book = Book::open(standard());
        assert!(rt; book.post(&PRICE).is_ok());
        let mut before = [0; 64];
        assert!(rt; book.write_entries(&mut before, 0) == Ok(14));
        assert!(rt;
            book.load(&CUT)
                == Err(Refusal {
                    fault: Fault::Short,
                    place: 14,
                })
        );
        let mut after = [0; 64];
        assert!(rt; book.write_entries(&mut after, 0) == Ok(14));
        assert!(rt; before == after);
        assert!(rt; book.close().is_ok());
        assert!(rt;
            book.post(&PRICE)
                == Err(Refusal {
                    fault: Fault::Closed,
                    place: 0,
                })
        );
        assert!(rt;
            book.clear(8, 0, 0)
                == Err(Refusal {
                    fault: Fault::Kind,
                    place: 0,
                })
        );
        assert!(rt;
            book.clear(7, 3, 0)
                == Err(Refusal {
                    fault: Fault::Closed,
                    place: 0,
                })
        );
    }

    #[test]
    fn a_slot_is_cleared_once(rt: HostRuntime) {
        let mut book = Book::open(standard());
        assert!(rt; book.post(&REMARK).is_ok());
        assert!(rt;
            book.clear(7, 3, 1)
                == Err(Refusal {
                    fault: Fault::Slot,
                    place: 0,
                })
        );
        assert!(rt; book.clear(7, 3, 0).is_ok());
        assert!(rt;
            book.clear(7, 3, 0)
                == Err(Refusal {
                    fault: Fault::Empty,
                    place: 0,
                })
        );
    }

    // A remark of 120 bytes comes back whole, and its file is written again by another book.
    #[test]
    fn a_long_remark_is_kept_whole(rt: HostRuntime) {
        let mut entry = [b'x'; 125];
        entry[0] = 7;
        entry[1] = 3;
        entry[2] = 0;
        entry[3] = 0;
        entry[4] = 120;
        entry[124] = b'!';
        let r = write_again(standard(), &[Call::Post(&entry)], standard());
        assert!(rt; r.taken);
        assert!(rt; r.before.length == 130 && r.after.length == 130);
        assert!(rt;
            r.after.bytes[10] == b'x' && r.after.bytes[128] == b'x' && r.after.bytes[129] == b'!'
        );
    }
}
