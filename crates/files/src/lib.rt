// The file of an hour's slots.
#![tactic(auto)]

pub mod entry;
pub mod file;
pub mod filled;
pub mod heads;
pub mod hour;
pub mod slots;
