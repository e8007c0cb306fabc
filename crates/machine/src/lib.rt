// The machine that runs code: its definitions, and laws about them.
#![tactic(auto)]
