// Demand 3: what a list of operations alone says of a chip, its settings among it; how long a trigger can be told to wait. No code: definitions in
// specs/ and theorems in proofs/.
#![tactic(auto)]
