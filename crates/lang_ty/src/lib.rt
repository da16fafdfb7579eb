// Types as nodes: rows of numbers in a lent slice, stored once each; primitives, sets, disjointness and the order of nodes.
#![tactic(auto)]

pub mod arc_ty;
pub mod arena;
pub mod attrset;
pub mod disjoint;
pub mod index;
pub mod primitive;
