// The laws of the rules: what follows from them, in proofs/, and what holds of every state of a pass, in specs/. Nobody has to believe these.
#![tactic(auto)]
