// Bounds: whether a value passes against a reference, under a line.
#![tactic(auto)]

pub mod bound;
pub mod ceiling;
pub mod exemption;
mod headroom;
pub mod line;
pub mod shortfall;
pub mod side;
