// A polygon with a vertex on every stick of a contour, and the samples that the contour encloses: definitions and theorems alone, in specs/ and
// proofs/.
#![tactic(auto)]
