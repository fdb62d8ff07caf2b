// How often a contour turns around a sample: definitions and theorems alone, in specs/ and proofs/.
#![tactic(auto)]
