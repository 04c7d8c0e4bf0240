// The table of an hour: its lines and its resources, slot by slot.
#![tactic(auto)]

pub mod fill;
pub mod hour;
pub mod record;
pub mod slots;
