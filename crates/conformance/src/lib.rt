// The slot machine against document 01's cases, worked examples and its former definitions, and the promise of cheaper tables: the definitions stand in specs/, the
// theorems in proofs/. There is no code.
#![tactic(auto)]
