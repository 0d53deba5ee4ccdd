// The SmallWood commitment: definitions in specs/, theorems in proofs/. No function.
#![tactic(auto)]
