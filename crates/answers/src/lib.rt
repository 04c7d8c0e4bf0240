// What is found of one resource: the verdicts on it and its charges.
#![tactic(auto)]

pub mod answer;
pub mod listed;
pub mod question;
pub mod shares;
