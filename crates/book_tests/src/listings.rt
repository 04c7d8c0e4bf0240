// Listings, mitigated files and questions.
ghost use Rattle.std.specs.Prelude.{◌≡◌};

#[cfg(test)]
mod tests {
    use answers::answer::Answer;
    use bodies::fault::{Fault, Refusal};
    use book::book::Book;
    use bounds::ceiling::Ceiling;
    use bounds::exemption::Exemption;
    use bounds::shortfall::Shortfall;
    use curves::row::Row;
    use curves::step::Step;
    use entries::head::Head;
    use histories::call::Call;
    use histories::compare::{Comparison, compare};
    use histories::drawn::same_bytes;
    use histories::file::File;
    use std::process::Abort;
    use supplier::Margin;
    use verdicts::places::{Places, Standard, standard};
    use vocabulary::lines::Terms;
    use vocabulary::standing::Standing;
    use vocabulary::verdict::Verdict;
    use writers::entry::{write_curve, write_line, write_number, write_quantity, write_standing};

    type Market = Book<Standard>;

    fn line(condition: u8, test: u8, percent: u32, cap: u32) -> [u8; 17] {
        let mut entry = [0; 17];
        let terms = Terms {
            percent,
            cap,
            floor: 0,
        };
        let _ = write_line(&mut entry, condition, test, &terms);
        entry
    }

    // A standing with conditions for energy alone.
    fn standing(resource: u8, entity: u8, energy: u8) -> [u8; 11] {
        let mut entry = [0; 11];
        let standing = Standing {
            entity,
            multiplier: 1,
            energy,
            spinning: 0,
            non_spinning: 0,
            thirty_minute: 0,
        };
        let _ = write_standing(&mut entry, resource, &standing);
        entry
    }

    fn quantity(resource: u8, tenths: u32) -> [u8; 9] {
        let mut entry = [0; 9];
        let _ = write_quantity(&mut entry, resource, 0, tenths);
        entry
    }

    // An energy price of a run.
    fn price(resource: u8, run: u8, cents: i32) -> [u8; 9] {
        let mut entry = [0; 9];
        let head = Head {
            kind: 6,
            first: resource,
            sub: run,
        };
        let _ = write_number(&mut entry, head, cents);
        entry
    }

    fn row(first: Step, second: Step, third: Step, fourth: Step, count: usize) -> Row
        ensures { result.count ≡ count }
    {
        let mut steps = [Step { price: 0, end: 0 }; 20];
        steps[0] = first;
        steps[1] = second;
        steps[2] = third;
        steps[3] = fourth;
        Row { steps, count }
    }

    fn step(price: i32, end: u32) -> Step {
        Step { price, end }
    }

    // The head of a resource's energy curve, in its offer or its reference.
    fn energy_head(kind: u8, resource: u8) -> Head {
        Head {
            kind,
            first: resource,
            sub: 0,
        }
    }

    // One step of $20 up to a quantity.
    fn offer(resource: u8, end: u32) -> [u8; 13] {
        let mut entry = [0; 13];
        let one = step(2_000, end);
        let head = energy_head(3, resource);
        let _ = write_curve(&mut entry, head, &row(one, one, one, one, 1));
        entry
    }

    // Three steps of an offer, or of a reference, for energy.
    fn three_steps(kind: u8, resource: u8, first: Step, second: Step, third: Step) -> [u8; 29] {
        let mut entry = [0; 29];
        let steps = row(first, second, third, third, 3);
        let _ = write_curve(&mut entry, energy_head(kind, resource), &steps);
        entry
    }

    fn held_back(rt: &impl Abort, book: &mut Market) {
        assert!(rt; book.post(&line(2, 8, 10, 100_000)).is_ok());
        assert!(rt; book.post(&line(2, 6, 100, 5_000)).is_ok());
        assert!(rt; book.post(&standing(3, 0, 4)).is_ok());
        let steps = three_steps(3, 3, step(3_000, 500), step(4_000, 600), step(5_000, 750));
        assert!(rt; book.post(&steps).is_ok());
        assert!(rt; book.post(&quantity(3, 900)).is_ok());
        assert!(rt; book.post(&price(3, 0, 18_000)).is_ok());
        assert!(rt; book.post(&price(3, 2, 7_000)).is_ok());
    }

    fn says(file: &File, text: &[u8]) -> bool {
        file.part() == text
    }

    fn says_at(file: &File, at: usize, text: &[u8]) -> bool {
        file.part().get(at..at.saturating_add(text.len())) == Some(text)
    }

    fn nothing_found() -> Answer {
        Answer {
            conduct: [Verdict::NotTested; 8],
            impact: [Verdict::NotTested; 4],
            resource: [Verdict::NotTested; 4],
            entity: [Verdict::NotTested; 4],
            quantity_impact: [Verdict::NotTested; 4],
            charges: [0; 4],
        }
    }

    // 90 MW less 75 MW, at $180 for an hour, threefold, in twentieths: 3 × 150 × 18,000.
    #[test]
    fn output_held_back_is_listed(rt: HostRuntime) {
        let mut book = Book::open(standard());
        held_back(&rt, &mut book);
        let mut out = [b'.'; 45];
        assert!(rt; book.write_listing(&mut out, 2) == Ok(40));
        assert!(rt; &out[0..42] == b"..03 NNNNNNNN NNNN FNNN NNNN FNNN 8100000\n".as_slice());
        assert!(rt; &out[42..45] == b"...".as_slice());
        let mut short = [b'.'; 39];
        let room = Err(Refusal {
            fault: Fault::Room,
            place: 0,
        });
        assert!(rt; book.write_listing(&mut short, 0) == room);
        assert!(rt; short == [b'.'; 39]);
    }

    #[test]
    fn a_question_fills_the_record_or_leaves_it(rt: HostRuntime) {
        let mut book = Book::open(standard());
        held_back(&rt, &mut book);
        let mut answer = nothing_found();
        assert!(rt; book.question(3, &mut answer).is_ok());
        assert!(rt;
            answer.resource[0] == Verdict::Failed && answer.quantity_impact[0] == Verdict::Failed
        );
        assert!(rt;
            answer.entity[0] == Verdict::NotTested && answer.conduct[0] == Verdict::NotTested
        );
        assert!(rt; answer.charges == [8_100_000, 0, 0, 0]);
        let refused = Err(Refusal {
            fault: Fault::Slot,
            place: 0,
        });
        assert!(rt; book.question(32, &mut answer) == refused);
        assert!(rt; answer.charges == [8_100_000, 0, 0, 0]);
        assert!(rt; book.question(31, &mut answer).is_ok());
        assert!(rt; answer.charges == [0; 4] && answer.resource[0] == Verdict::NotTested);
    }

    fn station(
        rt: &impl Abort,
        book: &mut Market,
        resource: u8,
        entity: u8,
        end: u32,
        tenths: u32,
    ) {
        assert!(rt; book.post(&standing(resource, entity, 1)).is_ok());
        assert!(rt; book.post(&offer(resource, end)).is_ok());
        assert!(rt; book.post(&quantity(resource, tenths)).is_ok());
        assert!(rt; book.post(&price(resource, 0, 18_000)).is_ok());
        assert!(rt; book.post(&price(resource, 2, 7_000)).is_ok());
    }

    // Entity 1 offers 304 of 310 MW, each sister no more than 3 MW short; another's station offers 10 of 90.
    fn sisters(rt: &impl Abort, book: &mut Market) {
        assert!(rt; book.post(&line(0, 8, 10, 50)).is_ok());
        assert!(rt; book.post(&line(0, 9, 10, 50)).is_ok());
        assert!(rt; book.post(&line(0, 6, 50, 2_500)).is_ok());
        station(rt, book, 0, 1, 2_170, 2_200);
        station(rt, book, 1, 1, 870, 900);
        station(rt, book, 9, 2, 100, 900);
    }

    // An hour, and the same hour with one more entry.
    fn one_more<'a>(hour: &'a [u8], entry: &'a [u8]) -> Comparison {
        let first = [Call::Load(hour)];
        let second = [Call::Load(hour), Call::Post(entry)];
        compare(standard(), &first, standard(), &second)
    }

    // Once the second sister offers all of its 90 MW, the first is charged no more, and the other's line is the same.
    #[test]
    fn a_correction_at_a_sister_is_seen(rt: HostRuntime) {
        let mut book = Book::open(standard());
        sisters(&rt, &mut book);
        let mut file = [0; 400];
        let n = book.write_entries(&mut file, 0).unwrap_or(0);
        assert!(rt; n <= 400);
        let r = one_more(&file[0..n], &offer(1, 900));
        assert!(rt; !r.alike && r.taken);
        assert!(rt;
            says(
                &r.first.listing,
                b"00 NNNNNNNN NNNN PNNN FNNN FNNN 1620000\n01 NNNNNNNN NNNN PNNN FNNN FNNN 1620000\n09 NNNNNNNN NNNN FNNN NNNN FNNN 43200000\n",
            )
        );
        assert!(rt;
            says(
                &r.second.listing,
                b"00 NNNNNNNN NNNN PNNN PNNN FNNN 0\n01 NNNNNNNN NNNN PNNN PNNN FNNN 0\n09 NNNNNNNN NNNN FNNN NNNN FNNN 43200000\n",
            )
        );
    }

    fn overpriced(rt: &impl Abort, book: &mut Market) {
        let steps = three_steps(
            3,
            2,
            step(1_900, 500),
            step(3_500, 750),
            step(80_000, 1_500),
        );
        assert!(rt; book.post(&steps).is_ok());
        assert!(rt; book.post(&price(2, 0, 80_000)).is_ok());
        assert!(rt; book.post(&price(2, 1, 4_500)).is_ok());
        assert!(rt; book.post(&standing(2, 0, 4)).is_ok());
        assert!(rt; book.post(&line(2, 6, 100, 5_000)).is_ok());
        assert!(rt; book.post(&line(2, 0, 300, 10_000)).is_ok());
    }

    // $19 to 50 MW, $35 to 75 and $800 to 150 against $5 to 50, $15 to 100 and $45 to 150, 300 percent or $100;
    // run prices of $800 and $45. The reference takes its place, unless another's bound lets it pass.
    #[test]
    fn an_offer_is_mitigated_once(rt: HostRuntime) {
        let reference = three_steps(4, 2, step(500, 500), step(1_500, 1_000), step(4_500, 1_500));
        let mut book = Book::open(standard());
        assert!(rt; book.post(&reference).is_ok());
        overpriced(&rt, &mut book);
        let mut file = [0; 200];
        let n = book.write_entries(&mut file, 0).unwrap_or(0);
        assert!(rt; n <= 200);
        let calls = [Call::Load(&file[0..n])];
        let lenient = Places::new(Margin { cents: 90_000 }, Ceiling, Ceiling, Shortfall);
        let r = compare(standard(), &calls, lenient, &calls);
        assert!(rt; r.alike && r.taken);
        assert!(rt; says(&r.first.listing, b"02 FNNNNNNN FNNN NNNN NNNN NNNN 0\n"));
        assert!(rt; says(&r.second.listing, b"02 PNNNNNNN FNNN NNNN NNNN NNNN 0\n"));
        assert!(rt; same_bytes(&r.second.mitigated, &r.second.entries));
        assert!(rt; !same_bytes(&r.first.mitigated, &r.first.entries));
        assert!(rt; same_bytes(&r.again, &r.first.mitigated));
        // behind the mark, two lines and the standing, the reference's steps in the offer's place
        assert!(rt;
            r.first.mitigated.length >= 79 && says_at(&r.first.mitigated, 55, &reference[5..29])
        );
    }
}
