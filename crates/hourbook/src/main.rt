// Reads an entry file from standard input, and prints its fault or the listing of an hour that holds it.
#![tactic(auto)]

use answering::answer::{MOST, answer};
use std::io::{Read, Write};

// One byte past the most that is looked at tells whether more come.
fn run(rt: &HostRuntime) -> anyhow::Result<()> {
    let mut input = Vec::new(rt.alloc());
    rt.stdin().take(MOST as u64 + 1).read_to_end(&mut input)?;
    let text = answer(rt.alloc(), input.as_slice())?;
    rt.stdout().write_all(text.as_slice())?;
    Ok(())
}

fn main(rt: HostRuntime) -> anyhow::Result<()> {
    run(&rt)
}
