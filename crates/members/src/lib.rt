// Lists of members by value, their nodes by number of the arena; flattening under its name in collect.rs.
#![tactic(auto)]

pub mod flatten;
pub mod lists;
