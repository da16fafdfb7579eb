// The Canonicalizer: the cycle of visit, rule and expansion, the two passes.
#![tactic(auto)]

pub mod collect;
mod made;
