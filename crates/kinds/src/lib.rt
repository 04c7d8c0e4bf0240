// Kinds of parameters: what their values are, how conduct is tested, and what stands in for an offer.
#![tactic(auto)]

pub mod amounts;
pub mod curve_kind;
pub mod judged;
pub mod kind;
pub mod mitigated;
