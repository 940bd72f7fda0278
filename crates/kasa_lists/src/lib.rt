//! Words on lists, which stand in specs/, and their laws, which stand in proofs/. There is no code.
#![tactic(auto)]
