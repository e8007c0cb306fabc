// What it means that a book is accepted or refused: definitions in specs/, theorems in proofs/, and no code.
#![tactic(auto)]
