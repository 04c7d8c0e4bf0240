// Two orders of arrival: whether they end alike and, where they do not, which lines of the listing differ.
#![tactic(auto)]

ghost use Rattle.std.specs.Prelude.{◌<◌};

mod lines;
mod words;

use anyhow::anyhow;
use bounds::ceiling::Ceiling;
use bounds::exemption::Exemption;
use bounds::shortfall::Shortfall;
use histories::compare::{Comparison, compare};
use lines::line_for;
use scripts::fault::Fault;
use scripts::parting::read_pair;
use scripts::script::Script;
use std::io::Read;
use verdicts::places::standard;
use words::{owed_in, subject, verdict};

// The verdicts on a resource that differ, and its charges.
fn print_differences(rt: &HostRuntime, first: &[u8], second: &[u8]) -> anyhow::Result<()> {
    for (offset, (a, b)) in first.iter().zip(second.iter()).enumerate() {
        if let Some(what) = subject(offset)
            && *a != *b
        {
            let was = verdict(*a);
            let is = verdict(*b);
            println!(rt; "  {what}: {was} in the first, {is} in the second")?;
        }
    }
    let a = owed_in(first);
    let b = owed_in(second);
    if a.twentieths != b.twentieths {
        println!(rt; "  owes {a} in the first, {b} in the second")?;
    }
    Ok(())
}

// Says how a resource's lines differ; false where they do not.
fn print_line(rt: &HostRuntime, resource: u8, r: &Comparison) -> anyhow::Result<bool>
    requires { resource < 100 }
{
    let first = line_for(r.first.listing.part(), resource);
    let second = line_for(r.second.listing.part(), resource);
    match (first, second) {
        (Some(a), Some(b)) if a != b => {
            println!(rt; "Resource {resource} is listed differently:")?;
            print_differences(rt, a, b)?;
            Ok(true)
        }
        (Some(_), None) => {
            println!(rt; "Resource {resource} is listed in the first only.")?;
            Ok(true)
        }
        (None, Some(_)) => {
            println!(rt; "Resource {resource} is listed in the second only.")?;
            Ok(true)
        }
        _ => Ok(false),
    }
}

fn print_comparison(rt: &HostRuntime, r: &Comparison) -> anyhow::Result<()> {
    if r.alike {
        println!(rt; "The two orders of arrival end alike: both hours hold the same entries.")?;
        return Ok(());
    }
    println!(rt; "The two orders of arrival do not end alike: the hours hold different entries.")?;
    let mut any = false;
    for resource in 0..32u8 {
        any |= print_line(rt, resource, r)?;
    }
    if !any {
        println!(rt; "No line of the listing differs.")?;
    }
    Ok(())
}

fn replay_both(rt: &HostRuntime, first: &Script, second: &Script) -> anyhow::Result<()> {
    let one = first.list(rt.alloc())?;
    let two = second.list(rt.alloc())?;
    let r = compare(standard(), one.as_slice(), standard(), two.as_slice());
    print_comparison(rt, &r)
}

fn run(rt: &HostRuntime) -> anyhow::Result<()> {
    let mut text = Vec::new(rt.alloc());
    rt.stdin().read_to_end(&mut text)?;
    match read_pair(rt.alloc(), text.as_slice()) {
        Ok(Some((first, second))) => replay_both(rt, &first, &second),
        Ok(None) => {
            println!(rt; "NO LINE -- PARTS TWO SCRIPTS")?;
            Ok(())
        }
        Err(Fault::NoCall { line }) => {
            println!(rt; "LINE {line} IS NO CALL")?;
            Ok(())
        }
        Err(Fault::Memory) => Err(anyhow!("no memory for the scripts")),
    }
}

fn main(rt: HostRuntime) -> anyhow::Result<()> {
    run(&rt)
}
