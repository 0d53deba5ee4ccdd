// Definitions of FIPS 202's permutation, and laws about them: see specs/ and proofs/. No function.
#![tactic(auto)]
