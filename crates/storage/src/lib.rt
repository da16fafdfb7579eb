// What a pass reads and notes: a table's entries, representatives, what is counted and noted, ids held, a variable and a set as nodes.
#![tactic(auto)]

pub mod entries;
pub mod equiv;
pub mod given;
pub mod held;
pub mod notes;
pub mod sets;
pub mod vars;
