// Figures that ask a bound about two values.
use crate::units::{Money, Power, answer_name};
use std::fmt::Display;
use std::{fmt, io};
use worked::bound_figure::{Asked, BoundFigure};

// A number in the figure's unit: cents, or tenths of a megawatt where quantities are compared.
#[derive(Clone, Copy)]
struct Amount(Asked, i64);

impl fmt::Display for Amount {
    fn fmt<W: fmt::Write>(&self, f: &mut fmt::Formatter<W>) -> fmt::Result {
        match self.0 {
            Asked::Ceiling | Asked::Exemption => Money(self.1).fmt(f),
            Asked::Shortfall => Power(self.1).fmt(f),
        }
    }
}

fn bound_name(asked: Asked) -> &'static str {
    match asked {
        Asked::Ceiling => "ceiling",
        Asked::Exemption => "exemption over the ceiling",
        Asked::Shortfall => "shortfall",
    }
}

fn print_answer(rt: &HostRuntime, figure: &BoundFigure, value: i32) -> io::Result<()> {
    let amount = Amount(figure.asked, i64::from(value));
    let verdict = answer_name(figure.answer(value));
    println!(rt; "   {amount} {verdict}")
}

pub fn print_figure(rt: &HostRuntime, figure: &BoundFigure) -> io::Result<bool> {
    let bound = bound_name(figure.asked);
    let percent = figure.percent;
    let cap = Amount(figure.asked, i64::from(figure.cap));
    let floor = Amount(figure.asked, i64::from(figure.floor));
    let reference = Amount(figure.asked, i64::from(figure.reference));
    println!(rt; "{bound}, {percent} percent, cap {cap}, floor {floor}, reference {reference}")?;
    print_answer(rt, figure, figure.passes)?;
    print_answer(rt, figure, figure.fails)?;
    Ok(figure.agrees())
}
