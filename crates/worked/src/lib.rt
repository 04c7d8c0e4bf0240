// The worked figures: what each asks, what it should come to, and what the code answers.
#![tactic(auto)]

pub mod bound_figure;
pub mod curve_figure;
pub mod hour;
pub mod list;
pub mod quantity_figure;
