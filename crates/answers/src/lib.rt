// What the calls share: the lines of a table's roots, and what is asked of a table, brought to the output.
#![tactic(auto)]

pub mod asked;
pub mod mixed;
pub mod roots;
