// The listing: the lines of a root's answer as text.
#![tactic(auto)]

pub mod lines;
pub mod walk;
pub mod write;

pub use crate::lines::{answers, refused_call, refused_root, root_lines};
pub use crate::write::Writer;
