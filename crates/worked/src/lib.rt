// The cases that document 01 works on paper: a theorem about the definitions (proofs/Worked), and no code.
#![tactic(auto)]
