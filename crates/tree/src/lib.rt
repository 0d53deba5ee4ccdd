// The Merkle tree over leaf records: definitions in specs/, theorems and laws in proofs/. No function.
#![tactic(auto)]
