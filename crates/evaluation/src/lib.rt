// Evaluating a scope of a book: definitions in specs/, theorems about them in proofs/, and no code.
#![tactic(auto)]
