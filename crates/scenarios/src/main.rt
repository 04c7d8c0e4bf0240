// The published scenarios, each loaded into a new book whose files are compared with those worked out by hand.
#![tactic(auto)]

mod compare;
mod list;
mod outcome;

use bounds::ceiling::Ceiling;
use bounds::exemption::Exemption;
use bounds::shortfall::Shortfall;
use compare::{Expected, compare};
use histories::document::Document;
use list::{SCENARIOS, Scenario};
use outcome::{Disagreement, document_name};
use std::{fs, io};
use verdicts::places::standard;

// A file of a scenario, by the name of the scenario and that of the document.
fn read_document(
    rt: &HostRuntime,
    scenario: &Scenario,
    document: Document,
) -> Result<Vec<u8>, Disagreement> {
    let name = scenario.name;
    let kind = document_name(document);
    let path = format!(in rt.alloc(); "{name}.{kind}").map_err(|_| Disagreement::Unread(document))?;
    fs::read(rt, path).map_err(|_| Disagreement::Unread(document))
}

fn run_scenario(rt: &HostRuntime, scenario: &Scenario) -> Result<(), Disagreement> {
    let entries = read_document(rt, scenario, Document::Entries)?;
    let listing = read_document(rt, scenario, Document::Listing)?;
    let mitigated = read_document(rt, scenario, Document::Mitigated)?;
    let expected = Expected {
        entries: entries.as_slice(),
        listing: listing.as_slice(),
        mitigated: mitigated.as_slice(),
    };
    compare(standard(), &expected)
}

// One line; true where the scenario agrees.
fn print_scenario(rt: &HostRuntime, scenario: &Scenario) -> io::Result<bool> {
    let title = scenario.title;
    match run_scenario(rt, scenario) {
        Ok(()) => {
            println!(rt; "agrees   {title}")?;
            Ok(true)
        }
        Err(disagreement) => {
            println!(rt; "DIFFERS  {title}: {disagreement}")?;
            Ok(false)
        }
    }
}

fn main(rt: HostRuntime) -> io::Result<()> {
    let mut agreed: usize = 0;
    for scenario in SCENARIOS {
        if print_scenario(&rt, &scenario)? {
            agreed += 1;
        }
    }
    let all = SCENARIOS.len();
    println!(rt; "{agreed} of {all} scenarios agree")
}
