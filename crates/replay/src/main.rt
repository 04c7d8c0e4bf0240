// Reads a script from standard input, obeys it on a new book, and prints the answers.
#![tactic(auto)]

use std::io::Read;
use transcripts::transcript::transcript;

fn run(rt: &HostRuntime) -> anyhow::Result<()> {
    let mut script = Vec::new(rt.alloc());
    rt.stdin().read_to_end(&mut script)?;
    let text = transcript(rt.alloc(), script.as_slice())?;
    rt.print(text.as_str())?;
    Ok(())
}

fn main(rt: HostRuntime) -> anyhow::Result<()> {
    run(&rt)
}
