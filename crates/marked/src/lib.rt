// Document 01's marked examples M1 to M12, as one table under one claim. No code: definitions in specs/ and the claim in proofs/.
#![tactic(auto)]
