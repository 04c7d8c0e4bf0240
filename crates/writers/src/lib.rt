// Entries written at the front of what is lent; what lies behind them stays.
#![tactic(auto)]

pub mod body;
pub mod bytes;
pub mod entry;
