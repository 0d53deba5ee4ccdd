// Definitions and laws of algebra: see specs/. No function.
#![tactic(auto)]
