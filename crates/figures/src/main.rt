// The worked figures, asked of the code and compared with what they should come to.
#![tactic(auto)]

mod bound;
mod curve;
mod quantity;
mod units;

use std::io;
use worked::list::{Figure, figures};

// What was asked and what came out; true where the code answers as the figure says.
fn print_figure(rt: &HostRuntime, figure: &Figure) -> io::Result<bool> {
    match figure {
        Figure::Bound(f) => bound::print_figure(rt, f),
        Figure::Curve(f) => curve::print_figure(rt, f),
        Figure::Quantity(f) => quantity::print_figure(rt, f),
    }
}

fn main(rt: HostRuntime) -> io::Result<()> {
    let figures = figures();
    let mut agreed: usize = 0;
    for (i, figure) in figures.iter().enumerate() {
        let number = i + 1;
        print!(rt; "{number}. ")?;
        if print_figure(&rt, figure)? {
            agreed += 1;
        }
    }
    let asked = figures.len();
    println!(rt; "{agreed} of {asked} figures agree")
}
