// Which contours add metal and which take it away, and how much: definitions and theorems alone, in specs/ and proofs/.
#![tactic(auto)]
