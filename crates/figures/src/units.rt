// Money and power as a scheduler writes them.
use curves::step::Step;
use std::fmt;
use vocabulary::verdict::Verdict;

// An amount in cents.
#[derive(Clone, Copy)]
pub struct Money(pub i64);

impl fmt::Display for Money {
    fn fmt<W: fmt::Write>(&self, f: &mut fmt::Formatter<W>) -> fmt::Result {
        let sign = if self.0 < 0 { "-" } else { "" };
        let dollars = self.0.unsigned_abs() / 100;
        let cents = self.0.unsigned_abs() % 100;
        write!(f, "{sign}${dollars}.{cents:02}")
    }
}

// A quantity in tenths of a megawatt.
#[derive(Clone, Copy)]
pub struct Power(pub i64);

impl fmt::Display for Power {
    fn fmt<W: fmt::Write>(&self, f: &mut fmt::Formatter<W>) -> fmt::Result {
        let sign = if self.0 < 0 { "-" } else { "" };
        let whole = self.0.unsigned_abs() / 10;
        let tenth = self.0.unsigned_abs() % 10;
        write!(f, "{sign}{whole}.{tenth} MW")
    }
}

// A charge in twentieths of a cent; what is less than a cent is left to the settlement.
#[derive(Clone, Copy)]
pub struct Charge(pub u64);

impl fmt::Display for Charge {
    fn fmt<W: fmt::Write>(&self, f: &mut fmt::Formatter<W>) -> fmt::Result {
        let dollars = self.0 / 2000;
        let cents = self.0 % 2000 / 20;
        write!(f, "${dollars}.{cents:02}")
    }
}

// The steps of a curve, each with its price and its end.
#[derive(Clone, Copy)]
pub struct Listed<'a>(pub &'a [Step]);

impl<'a> fmt::Display for Listed<'a> {
    fn fmt<W: fmt::Write>(&self, f: &mut fmt::Formatter<W>) -> fmt::Result {
        for (i, step) in self.0.iter().enumerate() {
            let comma = if i == 0 { "" } else { ", " };
            let price = Money(i64::from(step.price));
            let end = Power(i64::from(step.end));
            write!(f, "{comma}{price} to {end}")?;
        }
        Ok(())
    }
}

pub fn verdict_name(verdict: Verdict) -> &'static str {
    match verdict {
        Verdict::NotTested => "not tested",
        Verdict::Passed => "passes",
        Verdict::Failed => "fails",
    }
}

pub fn answer_name(answer: Option<bool>) -> &'static str {
    match answer {
        Some(true) => "passes",
        Some(false) => "fails",
        None => "not tested",
    }
}
