// Bodies of entries: what their bytes say, and why some are refused.
#![tactic(auto)]

pub mod amounts;
pub mod fault;
pub mod lines;
pub mod numbers;
pub mod remarks;
pub mod standings;
pub mod steps;
