// The words of the market, and the record of one resource.
#![tactic(auto)]

pub mod amount;
pub mod condition;
pub mod lines;
pub mod parameter;
pub mod product;
pub mod resource;
pub mod run;
pub mod standing;
pub mod test;
pub mod verdict;
