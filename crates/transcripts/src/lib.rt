// Scripts obeyed on a new book, with a line of answer for each line.
#![tactic(auto)]

pub mod obeying;
mod texts;
pub mod transcript;
