// No function: proofs without a conversation, their definitions and the theorems about them.
#![tactic(auto)]
