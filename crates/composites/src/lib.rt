// What is made of answers in a place: a variable's expanded bounds, a union, an intersection.
#![tactic(auto)]

pub mod binary;
pub mod bounds;
pub mod lists;
