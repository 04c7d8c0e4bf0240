// The verdicts on one resource, and its mitigated offer.
#![tactic(auto)]

pub mod conduct;
pub mod impact;
pub mod mitigation;
pub mod places;
pub mod quantity;
