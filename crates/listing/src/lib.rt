// A line of a listing written at the front of what is lent; what lies behind it stays.
#![tactic(auto)]

pub mod decimal;
pub mod letters;
pub mod line;
pub mod whole;
