// Books driven by their calls.
#![tactic(auto)]

mod fullest;
mod listings;
mod orders;
