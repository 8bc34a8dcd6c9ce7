// What most proofs need and mathlib lacks: the definitions stand in specs/, the laws in proofs/. There is no code.
#![tactic(auto)]
