// The fixed translation of a book into code: its definitions, and what holds of the code of an accepted book.
#![tactic(auto)]
