// Running the code of an accepted book agrees with evaluating the book: definitions in specs/, theorems in proofs/, and no code.
#![tactic(auto)]
