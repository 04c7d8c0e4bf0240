// Figures on an energy offer in a broad constrained area.
use crate::units::{Listed, Money, answer_name};
use curves::row::Row;
use curves::step::Step;
use std::io;
use worked::curve_figure::CurveFigure;
use worked::hour::Steps;

fn shown(steps: &Steps) -> &[Step] {
    &steps.list[..steps.count.min(4)]
}

fn print_prices(rt: &HostRuntime, figure: &CurveFigure) -> io::Result<()> {
    if let (Some(high), Some(low)) = (figure.as_offered, figure.reference_level) {
        let high = Money(i64::from(high));
        let low = Money(i64::from(low));
        println!(rt; "   prices {high} as offered, {low} at reference levels")?;
    }
    Ok(())
}

// One word for each step of the offer.
fn print_steps(rt: &HostRuntime, figure: &CurveFigure) -> io::Result<bool> {
    let mut agrees = true;
    print!(rt; "   steps:")?;
    for (step, expected) in figure.offer.list.iter().zip(figure.passes.iter()) {
        let passes = figure.step_passes(*step);
        let word = answer_name(passes);
        print!(rt; " {word}")?;
        agrees = agrees && passes == Some(*expected);
    }
    println!(rt; "")?;
    Ok(agrees)
}

pub fn print_figure(rt: &HostRuntime, figure: &CurveFigure) -> io::Result<bool> {
    let offer = Listed(shown(&figure.offer));
    println!(rt; "offer {offer}")?;
    let reference = Listed(shown(&figure.reference));
    println!(rt; "   reference {reference}")?;
    print_prices(rt, figure)?;
    let agrees = print_steps(rt, figure)?;
    let Some(curve) = figure.mitigated() else {
        println!(rt; "   no offer")?;
        return Ok(false);
    };
    let becomes = Listed(curve.steps());
    println!(rt; "   becomes {becomes}")?;
    Ok(agrees && curve.steps() == shown(&figure.becomes))
}
