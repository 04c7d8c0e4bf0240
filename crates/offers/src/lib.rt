// The slots of an hour with mitigated offers in place of offers.
#![tactic(auto)]

pub mod mitigated;
