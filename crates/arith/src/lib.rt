// Numbers and lists, for more than one crate: definitions in specs/, laws in proofs/. There is no code here.
#![tactic(auto)]
