// The format at its edges: each fault where it begins, and none just before.
#![tactic(auto)]

pub mod asked;
mod curve_entries;
mod files;
mod heads;
mod lengths;
mod ranges;
mod written;
