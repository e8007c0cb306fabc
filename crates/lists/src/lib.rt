// Input lists and results: their definitions and laws about them.
#![tactic(auto)]
