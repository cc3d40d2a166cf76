// Demand 3 for the MultiKron II: what a list of operations alone says of it; how long a trigger can be told to wait. No code: definitions in
// specs/ and theorems in proofs/.
#![tactic(auto)]
