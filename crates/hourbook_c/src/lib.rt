// The hour book behind one C function, which replays a script of calls and writes what is asked for.
#![tactic(auto)]

pub mod answered;
pub mod asked;
pub mod door;
pub mod script;
