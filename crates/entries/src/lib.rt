// Entries: which slot one fills, and how they are read from a file.
#![tactic(auto)]

pub mod cursor;
pub mod entry;
pub mod head;
pub mod reader;
