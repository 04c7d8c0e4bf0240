// Figures on output that is held back.
use crate::units::{Charge, Power, verdict_name};
use charges::finding::Finding;
use std::io;
use vocabulary::verdict::Verdict;
use worked::hour::Steps;
use worked::quantity_figure::{Held, QuantityFigure};

fn last_end(steps: &Steps) -> u32 {
    steps.list.iter().map(|step| step.end).max().unwrap_or(0)
}

fn print_held(rt: &HostRuntime, held: &Held, finding: &Finding) -> io::Result<()> {
    let Some(reference) = held.reference else {
        return Ok(());
    };
    let offered = Power(i64::from(last_end(&held.offer)));
    let reference = Power(i64::from(reference));
    let resource = verdict_name(finding.verdicts.resource);
    let entity = verdict_name(finding.verdicts.entity);
    let owes = Charge(finding.charge);
    println!(rt; "   {offered} of {reference}: resource {resource}, entity {entity}, owes {owes}")
}

fn agrees(figure: &QuantityFigure, first: &Finding, second: &Finding) -> bool {
    first.verdicts.resource == figure.resource_verdict
        && first.verdicts.entity == figure.entity_verdict
        && first.charge == figure.first.owes
        && second.charge == figure.second.owes
}

pub fn print_figure(rt: &HostRuntime, figure: &QuantityFigure) -> io::Result<bool> {
    let entity = figure.entity;
    println!(rt; "output held back, entity {entity}")?;
    let found = figure.found();
    print_held(rt, &figure.first, &found[0])?;
    print_held(rt, &figure.second, &found[1])?;
    Ok(agrees(figure, &found[0], &found[1]))
}
