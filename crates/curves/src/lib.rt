// Offer and reference curves.
#![tactic(auto)]

pub mod curve;
pub mod order;
pub mod row;
pub mod step;
