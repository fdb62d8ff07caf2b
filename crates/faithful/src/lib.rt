// That a held layer is faithful: definitions and theorems alone, in specs/ and proofs/.
#![tactic(auto)]
