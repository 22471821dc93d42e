// Theorems alone: the demands for what a player calls, through the C face (docs/RULES.md, section 13). See specs/ and proofs/.
#![tactic(auto)]
