// Definitions and laws over lists of numbers: see specs/. No function.
#![tactic(auto)]
