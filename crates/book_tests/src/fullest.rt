// The fullest book.
ghost use Rattle.std.specs.Prelude.{◌≡◌};

#[cfg(test)]
mod tests {
    use bodies::fault::{Fault, Refusal};
    use book::book::Book;
    use bounds::ceiling::Ceiling;
    use bounds::exemption::Exemption;
    use bounds::shortfall::Shortfall;
    use curves::row::Row;
    use curves::step::Step;
    use entries::head::Head;
    use std::process::Abort;
    use verdicts::places::{Standard, standard};
    use vocabulary::lines::Terms;
    use vocabulary::resource::Remark;
    use vocabulary::standing::Standing;
    use writers::entry::{
        write_curve, write_line, write_number, write_quantity, write_remark, write_standing,
    };

    type Market = Book<Standard>;

    fn row(count: usize) -> Row
        ensures { result.count ≡ count }
    {
        let mut steps = [Step { price: 0, end: 0 }; 20];
        let mut end = 0u32;
        for step in steps.iter_mut() {
            end = end.saturating_add(1);
            *step = Step { price: 100, end };
        }
        Row { steps, count }
    }

    fn post_lines(rt: &impl Abort, book: &mut Market) {
        let terms = Terms {
            percent: 10,
            cap: 100,
            floor: 0,
        };
        for place in 0..50u8 {
            let mut entry = [0; 17];
            let _ = write_line(&mut entry, place / 10, place % 10, &terms);
            assert!(rt; book.post(&entry).is_ok());
        }
    }

    fn post_parameters(rt: &impl Abort, book: &mut Market, kind: u8, resource: u8) {
        let mut energy = [0; 165];
        let first = resource;
        let _ = write_curve(
            &mut energy,
            Head {
                kind,
                first,
                sub: 0,
            },
            &row(20),
        );
        assert!(rt; book.post(&energy).is_ok());
        for sub in 1..4u8 {
            let mut reserve = [0; 45];
            let _ = write_curve(&mut reserve, Head { kind, first, sub }, &row(5));
            assert!(rt; book.post(&reserve).is_ok());
        }
        for sub in 4..8u8 {
            let mut amount = [0; 9];
            let _ = write_number(&mut amount, Head { kind, first, sub }, 24);
            assert!(rt; book.post(&amount).is_ok());
        }
    }

    fn post_numbers(rt: &impl Abort, book: &mut Market, resource: u8) {
        for product in 0..4u8 {
            let mut entry = [0; 9];
            let _ = write_quantity(&mut entry, resource, product, 100_000);
            assert!(rt; book.post(&entry).is_ok());
        }
        for run in 0..12u8 {
            let mut entry = [0; 9];
            let head = Head {
                kind: 6,
                first: resource,
                sub: run,
            };
            let _ = write_number(&mut entry, head, 200_000);
            assert!(rt; book.post(&entry).is_ok());
        }
    }

    fn post_rest(rt: &impl Abort, book: &mut Market, resource: u8) {
        let standing = Standing {
            entity: 15,
            multiplier: 9,
            energy: 15,
            spinning: 16,
            non_spinning: 0,
            thirty_minute: 1,
        };
        let mut entry = [0; 11];
        let _ = write_standing(&mut entry, resource, &standing);
        assert!(rt; book.post(&entry).is_ok());
        let remark = Remark {
            bytes: [0xff; 120],
            count: 120,
        };
        let mut words = [0; 125];
        let _ = write_remark(&mut words, resource, &remark);
        assert!(rt; book.post(&words).is_ok());
    }

    // 5 + 50 × 17 + 32 × (11 + 2 × (165 + 3 × 45 + 4 × 9) + 4 × 9 + 12 × 9 + 125) = 31,319
    #[test]
    fn the_fullest_file(rt: HostRuntime) {
        let mut book = Book::open(standard());
        post_lines(&rt, &mut book);
        for resource in 0..32u8 {
            post_rest(&rt, &mut book, resource);
            post_parameters(&rt, &mut book, 3, resource);
            post_parameters(&rt, &mut book, 4, resource);
            post_numbers(&rt, &mut book, resource);
        }
        let mut out = [7; 31_320];
        assert!(rt; book.write_entries(&mut out, 1) == Ok(31_319));
        assert!(rt; out[0] == 7 && out[1] == b'M' && out[31_319] == 0xff);
        let mut short = [7; 31_318];
        assert!(rt;
            book.write_entries(&mut short, 0)
                == Err(Refusal {
                    fault: Fault::Room,
                    place: 0,
                })
        );
        assert!(rt; short[0] == 7 && short[31_317] == 7);
    }
}
