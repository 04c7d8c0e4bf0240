// Groups of resources, charges, and all that is found of a product.
#![tactic(auto)]

pub mod charge;
pub mod finding;
pub mod group;
pub mod rules;
pub mod share;
