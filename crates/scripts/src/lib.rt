// Calls on a book written as text, one a line.
#![tactic(auto)]

pub mod call;
pub mod command;
mod decimal;
pub mod fault;
pub mod hex;
pub mod parting;
pub mod reader;
pub mod script;
pub mod scripted;
pub mod texts;
