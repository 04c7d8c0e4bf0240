// Lists of calls, replayed on new books.
#![tactic(auto)]

pub mod again;
pub mod call;
pub mod compare;
pub mod document;
pub mod drawn;
pub mod file;
pub mod replay;
