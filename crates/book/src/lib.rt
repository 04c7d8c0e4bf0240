// The hour book.
#![tactic(auto)]

pub mod book;
pub mod calls;
