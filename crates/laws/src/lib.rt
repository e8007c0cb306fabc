// Laws that every layer uses: Booleans by cases, lists of zeros. They stand in proofs/, and there is no code.
#![tactic(auto)]
