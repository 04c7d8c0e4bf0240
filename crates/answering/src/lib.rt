// The text that answers an entry file.
#![tactic(auto)]

pub mod answer;
pub mod texts;
