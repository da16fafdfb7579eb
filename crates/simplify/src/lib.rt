// The members of unions and intersections simplified, each function of collect.rs under its name.
#![tactic(auto)]

pub mod beside;
pub mod intersections;
pub mod own_keys;
pub mod pairs;
pub mod unions;
